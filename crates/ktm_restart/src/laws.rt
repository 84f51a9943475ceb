// Laws of the definitions, each the contract of a function that does nothing.
ghost use Rattle.std.specs.Prelude.{◌≡◌, ◌≤◌, ◌<◌, ◌^◌, ℕ, List, [], ◌∷◌, ◌++◌, All, true};
ghost use Rattle.ktm_base.specs.declared.limits.TheConstants.{LEAST_UNITS, MOST_UNITS};
ghost use Rattle.ktm_base.specs.Disk.{DiskState, MayLeave};
ghost use Rattle.ktm_journal.specs.Image.{IsImage, JournalState, empty_snapshot};
ghost use Rattle.ktm_snapshot.specs.StateGrammar.{IsStateOf};
ghost use Rattle.txf_laws.specs.GoodState.{IsGoodState};
ghost use Rattle.ktm_world.specs.Logs.{Group};
ghost use Rattle.ktm_paged.specs.Paged.{paged_after_all};
ghost use Rattle.txf_laws.specs.Grammatical.{changes_of_event};
ghost use Rattle.ktm_world.specs.Durable.{Durable, after_events, empty_state, events_apply};
ghost use Rattle.ktm_restart.specs.Logs.{AppliesTo, ComeTo, IsOnPages, JournalFor, PagedFor, StandsFor, bytes_seen};
ghost use Rattle.ktm_restart.specs.Bad.{IsBadAt};

use ktm_snapshot::law_of_examples;
use txf_laws::law_of_good_states;

/// Bytes are an image of one state over the places of bytes at most, and stand for one state of bytes at most.
pub fn law_of_states()
    ensures places { (a b : Durable) (bytes : List ℕ) → PagedFor a bytes → PagedFor b bytes → a ≡ b }
    ensures states { (a b : Durable) (bytes : List ℕ) → StandsFor a bytes → StandsFor b bytes → a ≡ b }
{
    ktm_snapshot::law_of_states();
}

/// A new image stands for the empty state, which has no bytes.
pub fn law_of_new_images()
    ensures places { (units image : ℕ) (bytes : List ℕ) → LEAST_UNITS ≤ units → units ≤ MOST_UNITS → image < 2 ^ 16 → IsImage units image empty_snapshot [] bytes
        → PagedFor (empty_state units image) bytes }
    ensures states { (units image : ℕ) (bytes : List ℕ) → LEAST_UNITS ≤ units → units ≤ MOST_UNITS → image < 2 ^ 16 → IsImage units image empty_snapshot [] bytes
        → StandsFor (empty_state units image) bytes }
{
    law_of_examples();
    law_of_good_states();
}

/// What a snapshot and groups come to, with a group more, which applies as it stands where it changes no file, and with a new snapshot, what a loss of power leaves of a journal, and for what
/// it stands.
pub fn law_of_journals()
    ensures grows { (state : Durable) (snapshot : List ℕ) (log : List Group) (group : Group) → ComeTo state snapshot log → AppliesTo state group
        → ComeTo (paged_after_all state group) snapshot (log ++ group ∷ []) }
    ensures plain { (state : Durable) (group : Group) → All (λ event. changes_of_event event ≡ []) group → IsOnPages state → events_apply state group ≡ true
        → AppliesTo state group × (paged_after_all state group ≡ after_events state group) }
    ensures begins { (state : Durable) (snapshot : List ℕ) → IsGoodState state → IsOnPages state → IsStateOf state snapshot → ComeTo state snapshot [] }
    ensures left { (j : JournalState) (state : Durable) (s : DiskState) (image : List ℕ) → JournalFor j state s → MayLeave s image → PagedFor state image }
    ensures seen { (places : Durable) (bytes : List ℕ) → PagedFor places bytes → StandsFor (bytes_seen bytes places) bytes }
{}

/// Bytes that stand for a state are bad nowhere.
pub fn law_of_bad_images()
    ensures { (state : Durable) (bytes : List ℕ) (offset : ℕ) → StandsFor state bytes → IsBadAt bytes offset → ⊥ }
{
    ktm_snapshot::law_of_states();
}

/// Bytes are bad at one place at most.
pub fn law_of_bad_places()
    ensures { (a b : ℕ) (bytes : List ℕ) → IsBadAt bytes a → IsBadAt bytes b → a ≡ b }
{
    ktm_snapshot::law_of_states();
}
