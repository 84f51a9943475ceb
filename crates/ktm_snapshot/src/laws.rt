// Laws of states and their bytes, each the contract of a function that does nothing.
ghost use Rattle.std.specs.Prelude.{◌≡◌, ℕ, List, length, nat_lt, true};
ghost use Rattle.ktm_base.specs.Grammar.{IsU32};
ghost use Rattle.ktm_codec.specs.Spans.{OneSpelling, Unambiguous};
ghost use Rattle.ktm_keyed.specs.Keyed.{comes_before, is_rising};
ghost use Rattle.ktm_keyed.specs.declared.keyed.Keyed.{Keyed};
ghost use Rattle.ktm_world.specs.EventGrammar.{IsIdOf};
ghost use Rattle.ktm_world.specs.Sizes.{part_size};
ghost use Rattle.ktm_world.specs.declared.event.Part.{Part};
ghost use Rattle.ktm_world.specs.declared.recorded.Node.{Node};
ghost use Rattle.ktm_world.specs.Durable.{Durable, Recorded, empty_state, is_before};
ghost use Rattle.ktm_world.specs.Tree.{numbers_rise};
ghost use Rattle.txf_laws.specs.Elements.{each_pair};
ghost use Rattle.ktm_snapshot.specs.Examples.{empty_bytes, small_bytes, small_state};
ghost use Rattle.ktm_snapshot.specs.Laws.{OneStateAtMost, StateHasItsSize};
ghost use Rattle.ktm_snapshot.specs.Pieces.{AddsItems, ListIsWritten, ReadsList, ReadsState, RisesByLast, StateIsWritten};
ghost use Rattle.ktm_snapshot.specs.StateGrammar.{IsEntryOf, IsHeadOf, IsMarkedOf, IsNodeOf, IsStartOf, IsStateOf, IsTransactionOf, transactions_rise};
ghost use Rattle.ktm_snapshot.specs.Works.{is_work, placed_part};

/// No state's spelling begins another one's, where their images have the same units and number; a state has one spelling, which
/// takes as many bytes as are counted for it.
pub fn law_of_states()
    ensures state { OneStateAtMost }
    ensures spelling { OneSpelling IsStateOf }
    ensures size { StateHasItsSize }
{}

/// No spelling of a piece begins another one of its kind, so what is written is read again, whatever follows it; and a piece has
/// one spelling.
pub fn law_of_pieces()
    ensures heads { Unambiguous IsHeadOf × OneSpelling IsHeadOf }
    ensures nodes { Unambiguous IsNodeOf × OneSpelling IsNodeOf }
    ensures entries { Unambiguous IsEntryOf × OneSpelling IsEntryOf }
    ensures managers { Unambiguous IsIdOf × OneSpelling IsIdOf }
    ensures transactions { Unambiguous IsTransactionOf × OneSpelling IsTransactionOf }
{}

/// Pieces that are written one behind the other spell the state: things behind their count a list, parts behind what a
/// transaction begins with the transaction, and a head and four lists the state.
pub fn law_of_writing()
    ensures nodes { ((count : ℕ) → AddsItems (IsU32 count) IsNodeOf) × ListIsWritten numbers_rise IsNodeOf }
    ensures entries { ((count : ℕ) → AddsItems (IsU32 count) IsEntryOf) × ListIsWritten is_rising IsEntryOf }
    ensures managers { ((count : ℕ) → AddsItems (IsU32 count) IsIdOf) × ListIsWritten (each_pair is_before) IsIdOf }
    ensures transactions { ((count : ℕ) → AddsItems (IsU32 count) IsTransactionOf) × ListIsWritten transactions_rise IsTransactionOf }
    ensures parts { (t : Recorded) → AddsItems (IsStartOf t.id t.stage t.superior (length t.parts)) IsMarkedOf }
    ensures state { StateIsWritten }
{}

/// Pieces that are read one behind the other, up to the end of the bytes, are the state, and where one of them is missing, or
/// things do not rise, or something is left, no state stands in the bytes.
pub fn law_of_reading()
    ensures nodes { (bytes : List ℕ) (at : ℕ) → ReadsList numbers_rise IsNodeOf bytes at }
    ensures entries { (bytes : List ℕ) (at : ℕ) → ReadsList is_rising IsEntryOf bytes at }
    ensures managers { (bytes : List ℕ) (at : ℕ) → ReadsList (each_pair is_before) IsIdOf bytes at }
    ensures transactions { (bytes : List ℕ) (at : ℕ) → ReadsList transactions_rise IsTransactionOf bytes at }
    ensures state { (bytes : List ℕ) (s : Durable) → ReadsState bytes s }
{}

/// Whether things rise is told by each of them and the last one before it.
pub fn law_of_order()
    ensures nodes { RisesByLast numbers_rise (λ (a b : Node). nat_lt a.number b.number) }
    ensures entries { RisesByLast is_rising (λ (a b : Keyed (List ℕ)). comes_before a.key b.key) }
    ensures managers { RisesByLast (each_pair is_before) is_before }
    ensures transactions { RisesByLast transactions_rise (λ (t u : Recorded). is_before t.id u.id) }
{}

/// A part of a transaction's work takes as many bytes as it does as a state has it, and a state has it of one recorded part alone.
pub fn law_of_works()
    ensures size { (part : Part) → is_work part ≡ true → part_size (placed_part part) ≡ part_size part }
    ensures one { (part other : Part) → is_work part ≡ true → is_work other ≡ true → placed_part part ≡ placed_part other → part ≡ other }
{}

/// The empty state and a small one, in any image, and their bytes.
pub fn law_of_examples()
    ensures empty { (units image : ℕ) → IsStateOf (empty_state units image) empty_bytes }
    ensures empty_size { length empty_bytes ≡ 36 }
    ensures small { (units image : ℕ) → IsStateOf (small_state units image) small_bytes }
{}
