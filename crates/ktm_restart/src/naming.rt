// The pages that a state has, and those that an event puts, named one behind another.
ghost use Rattle.std.specs.Prelude.{◌≡◌, ◌++◌, List, OnOk};
ghost use Rattle.ktm_owners.specs.declared.owners.Named.{Named as Name};
ghost use Rattle.ktm_owners.specs.Owners.{AreAllNamedBy, AreNamedByFile, AreNamedByPart, AreNamedByParts, AreNamedByState, AreNamedInTurn};
ghost use Rattle.txf_laws.specs.Grammatical.{changes_of_event};
ghost use Rattle.txf_tree.specs.Children.{node_seen};
ghost use Rattle.txf_tree.specs.TreeState.{tree_of};

use ktm_base::NoMemory;
use ktm_owners::{Owner, Owners};
use ktm_replayed::Replayed;
use ktm_waiting::changes_in;
use ktm_world::{Event, Recorded, RecordedPart};
use txf_tree::{NodeRef, Tree};

// Names the pages of a file; a directory has none.
fn name_file(node: NodeRef<'_>, owners: &mut Owners) -> Result<(), NoMemory>
    ensures owners { owners.new.owners ≡ owners.old.owners }
    ensures named { OnOk result ((names : List Name) × AreNamedByFile (node_seen node.entry) names × (owners.new.named ≡ owners.old.named ++ names)) }
{
    let first = Owner {
        node: node.number,
        unit: 0,
    };
    match node.content {
        Some(content) => owners.name_contents(first, content),
        None => Ok(()),
    }
}

// Names the pages of all files.
fn name_files(tree: &Tree, owners: &mut Owners) -> Result<(), NoMemory>
    ensures owners { owners.new.owners ≡ owners.old.owners }
    ensures named { OnOk result ((names : List Name) × AreNamedInTurn AreNamedByFile (tree_of tree.now) names × (owners.new.named ≡ owners.old.named ++ names)) }
{
    let mut nodes = tree.nodes();
    'nodes: while let Some(node) = nodes.next() {
        name_file(node, owners)?;
    }
    Ok(())
}

// Names the pages that the parts of a transaction put.
fn name_parts(parts: &[RecordedPart], owners: &mut Owners) -> Result<(), NoMemory>
    ensures owners { owners.new.owners ≡ owners.old.owners }
    ensures named { OnOk result ((names : List Name) × AreNamedInTurn AreNamedByPart parts.now names × (owners.new.named ≡ owners.old.named ++ names)) }
{
    for p in parts {
        owners.name_changes(changes_in(&p.part))?;
    }
    Ok(())
}

// Names the pages that transactions put.
fn name_works(transactions: &[Recorded], owners: &mut Owners) -> Result<(), NoMemory>
    ensures owners { owners.new.owners ≡ owners.old.owners }
    ensures named { OnOk result ((names : List Name) × AreNamedInTurn AreNamedByParts transactions.now names × (owners.new.named ≡ owners.old.named ++ names)) }
{
    for transaction in transactions {
        name_parts(&transaction.parts, owners)?;
    }
    Ok(())
}

/// Names all pages of a state, and no other.
pub(crate) fn name_state(replayed: &Replayed, owners: &mut Owners) -> Result<(), NoMemory>
    ensures owners { owners.new.owners ≡ owners.old.owners }
    ensures named { OnOk result (AreNamedByState replayed.now.state owners.new.named) }
{
    owners.name_none();
    name_files(replayed.tree(), owners)?;
    name_works(replayed.transactions(), owners)
}

/// Names the pages that an event puts, and no other.
pub(crate) fn name_event(event: &Event, owners: &mut Owners) -> Result<(), NoMemory>
    ensures owners { owners.new.owners ≡ owners.old.owners }
    ensures named { OnOk result (AreAllNamedBy (changes_of_event event.now) owners.new.named) }
{
    owners.name_none();
    match event {
        Event::Plain { change } => owners.name_change(change),
        Event::Ready { part, .. } | Event::Single { part, .. } => {
            owners.name_changes(changes_in(part))
        }
        _ => Ok(()),
    }
}
