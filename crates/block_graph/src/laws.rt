//! What the blocks of a body keep of its control flow.
ghost use Rattle.std.specs.Prelude.{◌≡◌, ℕ, ◌+◌, ◌<◌, Bool, []};
ghost use Rattle.oil_system.specs.declared.system.System.{System};
ghost use Rattle.task_code.specs.{declared.tree.Body.{Body}, Statements.{Statements, closing_line, nodes}};
ghost use Rattle.block_graph.specs.Blocks.{body_blocks, end_kind};
ghost use Rattle.block_graph.specs.Follows.{Rest, Way, Place, statement, brace, GoesTo, number, statement_line, block_at, leads, LocksFollow, exits_of, worked, worked_exits};
ghost use Rattle.block_graph.specs.Locks.{unpaired};

/// A law: the block of each statement of a body leads, by each choice, to the block of what follows it. It does nothing.
pub fn blocks_follow()
    ensures leads { (s : System) (body : Body) (n : ℕ) (xs : Statements) (w : Way body.statements xs)
        (choice : Bool) (q : Place body.statements) → GoesTo xs w choice q
        → leads (block_at s body n (statement w)) choice ≡ n + number q }

    // Each statement goes to one place.
    ensures some { (body xs next : Statements) → Rest xs next → (w : Way body xs) (choice : Bool)
        → (q : Place body) × GoesTo xs w choice q }
    ensures one { (body xs : Statements) (w : Way body xs) (choice : Bool) (p q : Place body)
        → GoesTo xs w choice p → GoesTo xs w choice q → p ≡ q }

    // Each has a block, which stands on its line; and so has the closing brace.
    ensures inside { (body xs next : Statements) → Rest xs next → (w : Way body xs)
        → number (statement w) < nodes body }
    ensures lines { (s : System) (body : Body) (n : ℕ) (xs next : Statements) (r : Rest xs next)
        (w : Way body.statements xs)
        → (block_at s body n (statement w)).line ≡ statement_line r }
    ensures closes { (s : System) (body : Body) (n : ℕ) → let end = block_at s body n brace in
        (end.kind ≡ end_kind body.kind) × (end.line ≡ closing_line body.statements) }

    // A worked case.
    ensures worked_case { (s : System) → exits_of (body_blocks s worked 10) ≡ worked_exits }
{}

/// A law: in a body whose locks pair, the same locks are open at a place by whatever way control flow comes to it, and its
/// block is locked where there is one. It does nothing.
pub fn locks_follow()
    ensures { (s : System) (body : Body) (n : ℕ) → unpaired body ≡ [] → LocksFollow s body n }
{}
