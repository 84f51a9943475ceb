// Keys and their values.
ghost use Rattle.std.specs.Prelude.{◌≡◌, IfOk};
ghost use Rattle.ktm_world.specs.declared.command.Command.TheVariants.{KvGet, KvList, KvSet, KvUnset};
ghost use Rattle.ktm_world.specs.declared.command.View.TheVariants.{Plain, Transaction as Through};
ghost use Rattle.ktm_world.specs.declared.reply.Reply.TheVariants.{Done, Keys};
ghost use Rattle.ktm_world.specs.KeyCalls.{reply_of_value};
ghost use Rattle.wattorju.specs.Calls.{IsCalled, answer_of};

use crate::law::law_of_bytes;
use crate::{Failure, Machine, Text, Transaction};
use ktm_base::{Bytes, Disk, TextList};
use ktm_world::{Command, View};

impl<D: Disk> Machine<D> {
    /// Gives a key a value, in a transaction. A key has 1 to 64 characters, a value at most 960 bytes.
    pub fn set(&mut self, transaction: &Transaction, key: Text, value: Bytes) -> Result<(), Failure>
        ensures { IsCalled (KvSet transaction.now.label key.characters value) self.old self.new (answer_of result (λ done. Done)) }
    {
        let Text { characters: key } = key;
        law_of_bytes(&value);
        self.done(Command::KvSet {
            transaction: transaction.label,
            key,
            value,
        })
    }

    /// Takes the value of a key away, in a transaction.
    pub fn unset(&mut self, transaction: &Transaction, key: Text) -> Result<(), Failure>
        ensures { IsCalled (KvUnset transaction.now.label key.characters) self.old self.new (answer_of result (λ done. Done)) }
    {
        let Text { characters: key } = key;
        self.done(Command::KvUnset {
            transaction: transaction.label,
            key,
        })
    }

    /// The value of a key as a transaction sees it, if it has one.
    pub fn get(&mut self, transaction: &Transaction, key: Text) -> Result<Option<Bytes>, Failure>
        ensures { IsCalled (KvGet (Through transaction.now.label) key.characters) self.old self.new (answer_of result reply_of_value) }
    {
        let Text { characters: key } = key;
        let view = View::Transaction(transaction.label);
        self.value(Command::KvGet { view, key })
    }

    /// The value of a key that was last committed, if there is one.
    pub fn get_committed(&mut self, key: Text) -> Result<Option<Bytes>, Failure>
        ensures { IsCalled (KvGet Plain key.characters) self.old self.new (answer_of result reply_of_value) }
    {
        let Text { characters: key } = key;
        self.value(Command::KvGet {
            view: View::Plain,
            key,
        })
    }

    /// The keys that have a value as a transaction sees them, by rising key.
    pub fn list(&mut self, transaction: &Transaction) -> Result<TextList, Failure>
        ensures { IsCalled (KvList (Through transaction.now.label)) self.old self.new (answer_of result Keys) }
    {
        self.keys(Command::KvList {
            view: View::Transaction(transaction.label),
        })
    }

    /// The keys that have a committed value, by rising key.
    pub fn list_committed(&mut self) -> Result<TextList, Failure>
        ensures { IsCalled (KvList Plain) self.old self.new (answer_of result Keys) }
    {
        self.keys(Command::KvList { view: View::Plain })
    }
}
