//! The interrupt locks that are open at a place of a body.
ghost use Rattle.std.specs.{Prelude.{◌≡◌}, List.{list_any}};
ghost use Rattle.block_graph.specs.declared.locks.Opener.TheVariants.{DisableAll};
ghost use Rattle.block_graph.specs.Locks.{role_of as the_role_of, is_opener as is_the_opener, are_same as are_the_same, is_doubled as is_it_doubled};

use arrayvec::ArrayVec;
use osek_values::Lock;
use osek_values::limits::MAX_LOCKS;
use std::marker::Model;
use task_code::Call;

/// An interrupt lock, by the service that opens it (ISO 17356-3, interrupt handling).
#[derive(Clone, Copy, Default)]
pub enum Opener {
    #[default]
    SuspendAll,
    SuspendOs,
    DisableAll,
}

/// What a lock call does.
#[derive(Clone, Copy)]
pub enum Role {
    Opens(Opener),
    /// It closes the lock that was opened last, which has to be this one.
    Closes(Opener),
}

/// What a lock call does.
pub fn role_of(lock: Lock) -> Role
    ensures { result ≡ the_role_of lock }
{
    match lock {
        Lock::SuspendAll => Role::Opens(Opener::SuspendAll),
        Lock::ResumeAll => Role::Closes(Opener::SuspendAll),
        Lock::SuspendOs => Role::Opens(Opener::SuspendOs),
        Lock::ResumeOs => Role::Closes(Opener::SuspendOs),
        Lock::DisableAll => Role::Opens(Opener::DisableAll),
        Lock::EnableAll => Role::Closes(Opener::DisableAll),
    }
}

/// Whether two openers are the same.
fn is_opener(one: Opener, other: Opener) -> bool
    ensures { result ≡ is_the_opener one other }
{
    match one {
        Opener::SuspendAll => matches!(other, Opener::SuspendAll),
        Opener::SuspendOs => matches!(other, Opener::SuspendOs),
        Opener::DisableAll => matches!(other, Opener::DisableAll),
    }
}

/// Whether two lists of openers are the same.
fn are_same(some: &[Opener], others: &[Opener]) -> bool
    ensures { result ≡ are_the_same some.now others.now }
{
    if some.len() != others.len() {
        return false;
    }
    for i in 0..some.len() {
        if !is_opener(some[i], others[i]) {
            return false;
        }
    }
    true
}

fn is_disabled(locks: &[Opener]) -> bool
    ensures { result ≡ list_any (is_the_opener DisableAll) locks.now }
{
    for opener in locks {
        if is_opener(Opener::DisableAll, *opener) {
            return true;
        }
    }
    false
}

/// Whether a DisableAll would nest in another.
fn is_doubled(locks: &[Opener], opener: Opener) -> bool
    ensures { result ≡ is_it_doubled locks.now opener }
{
    match opener {
        Opener::DisableAll => is_disabled(locks),
        Opener::SuspendAll => false,
        Opener::SuspendOs => false,
    }
}

/// The open locks, the first opened first: at most 8. It never takes memory.
#[derive(Drop)]
pub struct Locks {
    open: ArrayVec<Opener, 8>,
}

impl Model for Locks {
    ghost use Rattle.std.specs.Prelude.{List};
    ghost use Rattle.block_graph.specs.declared.locks.Opener.{Opener};

    ghost Value = { List Opener };

    ghost view = { λ locks. locks.open.items };
}

impl Locks {
    ghost use Rattle.std.specs.Prelude.{◌≡◌, ◌<◌, ◌-◌, [], ◌∷◌, ◌++◌, length, take};
    ghost use Rattle.osek_values.specs.declared.limits.TheConstants.{MAX_LOCKS};
    ghost use Rattle.block_graph.specs.Blocks.{is_locked as is_any_open};
    ghost use Rattle.block_graph.specs.Locks.{may_open as may_it_open, is_last as is_it_last, behind_role as behind_the_role, behind_call as behind_the_call, open_behind_call as open_behind_the_call};

    /// No lock.
    pub fn new() -> Locks
        ensures { result ≡ [] }
    {
        Locks {
            open: ArrayVec::new(),
        }
    }

    /// Another with the same locks.
    pub fn copy(&self) -> Locks
        ensures { result ≡ self.now }
    {
        let mut open = ArrayVec::new();
        for opener in self.open.as_slice() {
            open.push(*opener);
        }
        Locks { open }
    }

    /// Whether a lock is open.
    pub fn is_locked(&self) -> bool
        ensures { result ≡ is_any_open self.now }
    {
        !self.open.is_empty()
    }

    /// Whether the others are the same, in the same order.
    pub fn are_same(&self, others: &Locks) -> bool
        ensures { result ≡ are_the_same self.now others.now }
    {
        are_same(self.open.as_slice(), others.open.as_slice())
    }

    /// Whether one more lock may be opened.
    fn may_open(&self, opener: Opener) -> bool
        ensures { result ≡ may_it_open self.now opener }
    {
        let has_room = self.open.len() < MAX_LOCKS;
        has_room && !is_doubled(self.open.as_slice(), opener)
    }

    /// Whether the lock was opened last.
    fn is_last(&self, opener: Opener) -> bool
        ensures { result ≡ is_it_last self.now opener }
    {
        match self.open.as_slice().last().copied() {
            Some(other) => is_opener(opener, other),
            None => false,
        }
    }

    /// These and one more.
    fn with(&self, opener: Opener) -> Locks
        requires { length self.now < MAX_LOCKS }
        ensures { result ≡ self.now ++ opener ∷ [] }
    {
        let mut locks = self.copy();
        locks.open.push(opener);
        locks
    }

    /// These without the last.
    fn without_last(&self) -> Locks
        ensures { result ≡ take (length self.now - 1) self.now }
    {
        let mut locks = self.copy();
        let _ = locks.open.pop();
        locks
    }

    /// The open locks behind a lock call, where it is allowed.
    fn behind_role(&self, role: Role) -> Option<Locks>
        ensures { result ≡ behind_the_role self.now role }
    {
        match role {
            Role::Opens(opener) => {
                if self.may_open(opener) {
                    Some(self.with(opener))
                } else {
                    None
                }
            }
            Role::Closes(opener) => {
                if self.is_last(opener) {
                    Some(self.without_last())
                } else {
                    None
                }
            }
        }
    }

    /// The open locks behind a call, where it is allowed.
    pub fn behind_call(&self, call: &Call) -> Option<Locks>
        ensures { result ≡ behind_the_call self.now call.now }
    {
        match call {
            Call::LockCall(lock) => self.behind_role(role_of(*lock)),
            _ => {
                if self.is_locked() {
                    None
                } else {
                    Some(Locks::new())
                }
            }
        }
    }

    /// The open locks behind a call: the same where it is not allowed.
    pub fn open_behind_call(&self, call: &Call) -> Locks
        ensures { result ≡ open_behind_the_call self.now call.now }
    {
        match self.behind_call(call) {
            Some(behind) => behind,
            None => self.copy(),
        }
    }
}
