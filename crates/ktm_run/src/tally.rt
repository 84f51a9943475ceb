// What is counted of replies.
ghost use Rattle.std.specs.Prelude.{◌≡◌, ◌+◌, ◌≤◌, ◌<◌, [], ◌∷◌, count_by};
ghost use Rattle.ktm_run.specs.Summary.{is_ok, is_refused, is_start};

use ktm_gen::MOST_LINES;
use ktm_world::Reply;

/// How many replies there were, and how many of each kind.
#[derive(Drop)]
pub struct Tally {
    pub lines: u64,
    /// The replies that begin with `ok`.
    pub ok: u64,
    pub refused: u64,
    /// The replies that begin with `restarted`.
    pub restarts: u64,
    ghost few: { ok + refused + restarts ≤ lines },
}

impl Tally {
    /// Of no replies.
    pub fn new() -> Self
        ensures lines { result.lines ≡ 0 }
        ensures ok { result.ok ≡ 0 }
        ensures refused { result.refused ≡ 0 }
        ensures restarts { result.restarts ≡ 0 }
    {
        Tally {
            lines: 0,
            ok: 0,
            refused: 0,
            restarts: 0,
        }
    }

    /// Counts one reply more.
    pub fn count(&mut self, reply: &Reply)
        requires { self.old.lines < MOST_LINES }
        ensures lines { self.new.lines ≡ self.old.lines + 1 }
        ensures ok { self.new.ok ≡ self.old.ok + count_by is_ok (reply.now ∷ []) }
        ensures refused { self.new.refused ≡ self.old.refused + count_by is_refused (reply.now ∷ []) }
        ensures restarts { self.new.restarts ≡ self.old.restarts + count_by is_start (reply.now ∷ []) }
    {
        self.lines += 1;
        match reply {
            Reply::Refused(_) => self.refused += 1,
            Reply::Restarted { .. } => self.restarts += 1,
            Reply::BadImage(_) => {}
            _ => self.ok += 1,
        }
    }
}
