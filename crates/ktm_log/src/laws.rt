// Laws of the definitions, over all bytes.
ghost use Rattle.std.specs.Prelude.{◌≡◌, ◌⊎◌, ℕ, ◌<◌, List, length};
ghost use Rattle.ktm_log.specs.Log.{IsLog, IsBadLog};

/// Bytes are a log of one list of payloads at most.
pub fn law_of_logs()
    ensures { (ps qs : List (List ℕ)) (bytes : List ℕ) → IsLog ps bytes → IsLog qs bytes → ps ≡ qs }
{}

/// Bytes are a bad log at one place at most.
pub fn law_of_bad_logs()
    ensures { (ps qs : List (List ℕ)) (bytes : List ℕ) → IsBadLog ps bytes → IsBadLog qs bytes → ps ≡ qs }
{}

/// No bytes are a log and a bad log.
pub fn law_of_one_kind()
    ensures { (ps qs : List (List ℕ)) (bytes : List ℕ) → IsLog ps bytes → IsBadLog qs bytes → ⊥ }
{}

/// All bytes but none at all are a log or a bad log.
pub fn law_of_some_kind()
    ensures { (bytes : List ℕ) → 0 < length bytes → ((ps : List (List ℕ)) × IsLog ps bytes) ⊎ ((ps : List (List ℕ)) × IsBadLog ps bytes) }
{}
