// What is left of the dirty ranges of a block.
ghost use Rattle.std.specs.Prelude.{◌≡◌, ℕ, ◌+◌, ◌-◌, ◌%◌, ◌<◌, ◌≤◌, min, List, [], ◌∷◌, length, Option, OnOk, false, IfSome};
ghost use Rattle.ktm_base.specs.Bytes.{SameOutside};
ghost use Rattle.ktm_base.specs.Stream.{Faults};
ghost use Rattle.ktm_base.specs.Told.{Goes};
ghost use Rattle.ktm_cut.specs.Elsewhere.{SameElsewhere};
ghost use Rattle.ktm_cut.specs.Sure.{SureFrom, SureIn, IsDirtySure};
ghost use Rattle.ktm_disk.specs.Told.{length_at_sync};
ghost use Rattle.ktm_cut.specs.Left.{with_zeros, with_drawn, left_of_range, left_of_ranges, left_of_added, left_of};

use ktm_base::{Block, Failed};
use rand_core::SeedableRng;
use rand_core::utils::{NextWord, fill_bytes_via_u32};
use rand_pcg::Lcg64Xsh32;

const PIECE: usize = 512;

/// Lets `pick` choose what is left of each range, and then of the bytes that were added behind `grown_from`. All of them are
/// written, also those that stay as they are: an earlier flush may have failed, and the next one then answers Ok without
/// what the system lost.
pub fn settle<B: Block>(
    block: &mut B,
    pick: u64,
    ranges: &[(u64, u64)],
    grown_from: Option<u64>,
) -> Result<(), Failed>
    ensures contents { Goes (λ old new. SameElsewhere ranges.now (length_at_sync grown_from (length old)) old new) (B.contents block.old) (B.contents block.new) }
    ensures left { OnOk result (Goes (λ old new. new ≡ left_of pick ranges.now (length_at_sync grown_from (length old)) old) (B.contents block.old) (B.contents block.new)) }
    ensures kept { OnOk result (Goes (λ old new. IsDirtySure ranges.now (length_at_sync grown_from (length old)) (B.is_doubted block.new) new) (B.contents block.old) (B.contents block.new)) }
    ensures faults { Faults (B.faults block.old) (B.faults block.new) result }
    ensures flushed { OnOk result (B.waits block.new ≡ false) }
{
    let mut words = Lcg64Xsh32::seed_from_u64(pick);
    let len = block.len()?;
    settle_ranges(block, &mut words, ranges, len)?;
    settle_added(block, &mut words, grown_from, len)?;
    block.flush()?;
    Ok(())
}

// Of a range that passes the end, which only a block that tells nothing can have, the part before the end is treated.
fn settle_ranges<B: Block>(
    block: &mut B,
    words: &mut Lcg64Xsh32,
    ranges: &[(u64, u64)],
    len: u64,
) -> Result<(), Failed>
    requires { IfSome (B.contents block.old) (λ bytes. len ≡ length bytes) }
    ensures contents { Goes (SameOutside ranges.now) (B.contents block.old) (B.contents block.new) }
    ensures left { OnOk result (Goes (λ old new. (new, words.new) ≡ left_of_ranges ranges.now words.old old) (B.contents block.old) (B.contents block.new)) }
    ensures sure { OnOk result (SureIn ranges.now len (B.is_doubted block.old) (B.is_doubted block.new)) }
    ensures faults { Faults (B.faults block.old) (B.faults block.new) result }
{
    for (at, size) in ranges {
        let from = len.min(*at);
        let end = len.min(at.saturating_add(*size));
        settle_range(block, words, from, end)?;
    }
    Ok(())
}

// The bytes behind `grown_from`, if there are any, are a range of their own.
fn settle_added<B: Block>(
    block: &mut B,
    words: &mut Lcg64Xsh32,
    grown_from: Option<u64>,
    len: u64,
) -> Result<(), Failed>
    requires { IfSome (B.contents block.old) (λ bytes. len ≡ length bytes) }
    ensures contents { Goes (λ old new. SameElsewhere [] (length_at_sync grown_from (length old)) old new) (B.contents block.old) (B.contents block.new) }
    ensures left { OnOk result (Goes (λ old new. new ≡ left_of_added (length_at_sync grown_from (length old)) words.old old) (B.contents block.old) (B.contents block.new)) }
    ensures sure { OnOk result (SureFrom (length_at_sync grown_from len) len (B.is_doubted block.old) (B.is_doubted block.new)) }
    ensures faults { Faults (B.faults block.old) (B.faults block.new) result }
{
    match grown_from {
        Some(from) if from < len => settle_range(block, words, from, len),
        _ => Ok(()),
    }
}

// Draws a word, which chooses what is left of the range. What stays as it was written is written again.
fn settle_range<B: Block>(
    block: &mut B,
    words: &mut Lcg64Xsh32,
    from: u64,
    end: u64,
) -> Result<(), Failed>
    requires order { from ≤ end }
    requires within { IfSome (B.contents block.old) (λ bytes. end ≤ length bytes) }
    ensures contents { Goes (SameOutside ((from, end - from) ∷ [])) (B.contents block.old) (B.contents block.new) }
    ensures left { OnOk result (Goes (λ old new. (new, words.new) ≡ left_of_range from end words.old old) (B.contents block.old) (B.contents block.new)) }
    ensures sure { OnOk result (SureFrom from end (B.is_doubted block.old) (B.is_doubted block.new)) }
    ensures faults { Faults (B.faults block.old) (B.faults block.new) result }
{
    match words.next_word() % 4 {
        0 => write_again(block, from, end),
        1 => write_zeros(block, from, end),
        2 => write_drawn(block, words, from, end),
        _ => {
            let middle = from + (end - from) / 2;
            write_again(block, from, middle)?;
            write_drawn(block, words, middle, end)
        }
    }
}

fn write_again<B: Block>(block: &mut B, from: u64, end: u64) -> Result<(), Failed>
    requires order { from ≤ end }
    requires within { IfSome (B.contents block.old) (λ bytes. end ≤ length bytes) }
    ensures contents { Goes (SameOutside ((from, end - from) ∷ [])) (B.contents block.old) (B.contents block.new) }
    ensures same { OnOk result (B.contents block.new ≡ B.contents block.old) }
    ensures sure { OnOk result (SureFrom from end (B.is_doubted block.old) (B.is_doubted block.new)) }
    ensures faults { Faults (B.faults block.old) (B.faults block.new) result }
{
    let mut bytes = [0; PIECE];
    let mut at = from;
    while at < end {
        let size = piece_of(end - at);
        let piece = &mut bytes[..size];
        block.read_at(at, piece)?;
        block.write_at(at, piece)?;
        at += size as u64;
    }
    Ok(())
}

fn write_zeros<B: Block>(block: &mut B, from: u64, end: u64) -> Result<(), Failed>
    requires order { from ≤ end }
    requires within { IfSome (B.contents block.old) (λ bytes. end ≤ length bytes) }
    ensures contents { Goes (SameOutside ((from, end - from) ∷ [])) (B.contents block.old) (B.contents block.new) }
    ensures left { OnOk result (Goes (λ old new. new ≡ with_zeros from end old) (B.contents block.old) (B.contents block.new)) }
    ensures sure { OnOk result (SureFrom from end (B.is_doubted block.old) (B.is_doubted block.new)) }
    ensures faults { Faults (B.faults block.old) (B.faults block.new) result }
{
    let zeros = [0; PIECE];
    let mut at = from;
    while at < end {
        let size = piece_of(end - at);
        block.write_at(at, &zeros[..size])?;
        at += size as u64;
    }
    Ok(())
}

fn write_drawn<B: Block>(
    block: &mut B,
    words: &mut Lcg64Xsh32,
    from: u64,
    end: u64,
) -> Result<(), Failed>
    requires order { from ≤ end }
    requires within { IfSome (B.contents block.old) (λ bytes. end ≤ length bytes) }
    ensures contents { Goes (SameOutside ((from, end - from) ∷ [])) (B.contents block.old) (B.contents block.new) }
    ensures left { OnOk result (Goes (λ old new. (new, words.new) ≡ with_drawn from end words.old old) (B.contents block.old) (B.contents block.new)) }
    ensures sure { OnOk result (SureFrom from end (B.is_doubted block.old) (B.is_doubted block.new)) }
    ensures faults { Faults (B.faults block.old) (B.faults block.new) result }
{
    let mut drawn = [0; PIECE];
    let mut at = from;
    while at < end {
        let size = piece_of(end - at);
        let piece = &mut drawn[..size];
        fill_bytes_via_u32(words, piece);
        block.write_at(at, piece)?;
        at += size as u64;
    }
    Ok(())
}

// How many of these bytes are written at once.
fn piece_of(left: u64) -> usize
    requires { 0 < left }
    ensures some { 0 < result }
    ensures least { result ≡ min left PIECE }
{
    left.min(PIECE as u64) as usize
}
