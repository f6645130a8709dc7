//! What a bus is to do with the transactions to come.

mod text;

use arrayvec::ArrayVec;
use std::marker::Model;

/// How many directives a script has at most.
pub const MAX_DIRECTIVES: usize = 1024;

/// What is to happen next on the bus. In a text counts are 1 to 65535, and a cut store has given 0 to 8 bytes.
#[derive(Clone, Copy, Debug, PartialEq, Eq)]
pub enum Directive {
    /// So many transactions are passed on.
    Pass(u16),
    /// So many are refused, and the device sees nothing of them.
    Nack(u16),
    /// One is refused, after a store has given so many of its bytes, or all if it has fewer.
    Cut(u8),
    /// So many units of time pass before the next transaction.
    Tick(u16),
    /// The host sets the pin that asks for low power, before the next transaction.
    LowPower(bool),
}

impl Default for Directive {
    ghost use Rattle.std.specs.Prelude.{◌≡◌};
    ghost use Rattle.bus_model.specs.declared.script.Directive.TheVariants.{Pass};

    ghost is_default = { λ directive. directive ≡ Pass 1 };

    fn default() -> Self {
        Directive::Pass(1)
    }
}

/// The directives that are still to come. After the last of them all transactions are passed on.
#[derive(Debug, Drop)]
pub struct Script {
    directives: ArrayVec<Directive, MAX_DIRECTIVES>,
    next: usize,
}

impl Model for Script {
    ghost use Rattle.std.specs.Prelude.{List, drop, length, ◌≤◌};
    ghost use Rattle.bus_model.specs.declared.script.Directive.{Directive};

    ghost Value = { List Directive };

    ghost view = { λ script. drop script.next script.directives.items };

    ghost invariant = { λ script. script.next ≤ length script.directives.items };
}

impl Script {
    ghost use Rattle.std.specs.Prelude.{◌≡◌, ◌≢◌, [], ◌∷◌};
    ghost use Rattle.bus_model.specs.Scripts.{first, rest, spent};

    /// The script without directives.
    pub fn new() -> Self
        ensures { result ≡ [] }
    {
        Script {
            directives: ArrayVec::new(),
            next: 0,
        }
    }

    /// The directive that comes next.
    pub fn first(&self) -> Option<Directive>
        ensures { result ≡ first self.now }
    {
        self.directives.as_slice().get(self.next).copied()
    }

    // Leaves out the next directive.
    pub(crate) fn skip(&mut self)
        ensures { self.new ≡ rest self.old }
    {
        if self.next < self.directives.len() {
            self.next += 1;
        }
    }

    // Takes one transaction off the next directive.
    pub(crate) fn spend(&mut self)
        ensures { self.new ≡ spent self.old }
    {
        match self.first() {
            Some(Directive::Pass(n)) if n > 1 => self.replace(Directive::Pass(n - 1)),
            Some(Directive::Nack(n)) if n > 1 => self.replace(Directive::Nack(n - 1)),
            _ => self.skip(),
        }
    }

    fn replace(&mut self, directive: Directive)
        requires { first self.old ≢ None }
        ensures { self.new ≡ directive ∷ rest self.old }
    {
        self.directives[self.next] = directive;
    }
}
