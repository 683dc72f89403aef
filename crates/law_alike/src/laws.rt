//! Laws over the definitions.
ghost use Rattle.std.specs.Prelude.{◌≡◌, ℕ, Bool, false, List, length, replicate};
ghost use Rattle.mx_icache.specs.declared.line_cache.LineCache.{LineCache};
ghost use Rattle.mx_icache.specs.LineSets.{CacheHolds};
ghost use Rattle.mx_turn.specs.Cycle.{MachineState};
ghost use Rattle.mx_turn.specs.Run.{bytes_on};
ghost use Rattle.mx_turn.specs.Program.{Program};
ghost use Rattle.law_alike.specs.Alike.{AnswerAlike, later, GoOnLike, CountAsMuch};
ghost use Rattle.law_alike.specs.Users.{UsersGoOnLike};

/// Two such states are such again after any request bits; they send the same bytes over these, and count as much.
pub fn states_go_on_alike()
    ensures states { (p : Program) (m n : MachineState) (requests : List Bool) → GoOnLike m n
        → GoOnLike (later p m requests) (later p n requests) }
    ensures bytes { (p : Program) (m n : MachineState) (requests : List Bool) → GoOnLike m n → bytes_on p m requests ≡ bytes_on p n requests }
    ensures counts { (p : Program) (m n : MachineState) (requests : List Bool) → GoOnLike m n
        → CountAsMuch m.counts (later p m requests).counts n.counts (later p n requests).counts }
{}

/// A cache of four sets that stands for two lists of fetches answers alike behind both.
pub fn equal_caches_answer_alike()
    ensures { (cache : LineCache) (past past' : List ℕ) → length cache.sets ≡ 4 → CacheHolds cache past → CacheHolds cache past'
        → AnswerAlike past past' }
{}

/// Where user code runs and no request comes, the words of the system change nothing: user code never reads them. Such states are such again,
/// and send the same bytes.
pub fn users_go_on_alike()
    ensures states { (p : Program) (m n : MachineState) (cycles : ℕ) → UsersGoOnLike m n
        → UsersGoOnLike (later p m (replicate cycles false)) (later p n (replicate cycles false)) }
    ensures bytes { (p : Program) (m n : MachineState) (cycles : ℕ) → UsersGoOnLike m n
        → bytes_on p m (replicate cycles false) ≡ bytes_on p n (replicate cycles false) }
{}
