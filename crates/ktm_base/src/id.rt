// Who calls, what it calls by which name, and what the system calls it.

/// A process of the script, from 1 to 64.
#[derive(Clone, Copy, PartialEq, Eq)]
pub struct Pid(pub u8);

/// The name that a process gives to a handle, from 1 to 65,535.
#[derive(Clone, Copy, PartialEq, Eq)]
pub struct Label(pub u16);

/// An object: the boot in which it was made, from 1, and its number among the objects of its kind in that boot, from 1.
#[derive(Clone, Copy, Debug, PartialEq, Eq)]
pub struct Id {
    pub boot: u32,
    pub number: u32,
}

/// The kinds of object that have a GUID.
#[derive(Clone, Copy, PartialEq, Eq)]
pub enum ObjectKind {
    Transaction,
    Manager,
    Enlistment,
}
