//! Code that is written from its end, so that a jump forward knows what it passes.
ghost use Rattle.std.specs.Prelude.{◌≡◌, ◌<◌, List, [], ◌∷◌, ◌++◌, length, reverse, OnOk};
ghost use Rattle.go_code.specs.declared.instr.Instr.{Instr};
ghost use Rattle.go_symbol.specs.Symbols.{Symbol};

use go_code::instr::Instr;
use go_symbol::Symbol;
use std::alloc::{AllocError, Global};
use std::marker::Model;

/// The end of a code.
#[derive(Drop)]
pub struct Code {
    reversed: Vec<Instr<Symbol>>,
}

impl Model for Code {
    ghost use Rattle.std.specs.Prelude.{List, reverse};
    ghost use Rattle.go_code.specs.declared.instr.Instr.{Instr};
    ghost use Rattle.go_symbol.specs.Symbols.{Symbol};

    ghost Value = { List (Instr Symbol) };

    ghost view = { λ a. reverse a.reversed.items };
}

impl Code {
    /// No code.
    pub fn new(alloc: Global) -> Code
        ensures { result ≡ [] }
    {
        Code {
            reversed: Vec::new(alloc),
        }
    }

    /// One more instruction, before the others. An `Err` only where memory ran out.
    pub fn put(&mut self, instr: Instr<Symbol>) -> Result<(), AllocError>
        ensures { OnOk result (self.new ≡ instr ∷ self.old) }
    {
        self.reversed.push(instr)?;
        Ok(())
    }

    /// How many instructions there are.
    pub fn len(&self) -> usize
        ensures { result ≡ length self.now }
    {
        self.reversed.len()
    }

    /// Another instruction in the place of the one that so many follow.
    pub fn replace(&mut self, following: usize, instr: Instr<Symbol>)
        requires { following < length self.old }
        ensures { (front back : List (Instr Symbol)) (x : Instr Symbol) → self.old ≡ front ++ x ∷ back → length back ≡ following
            → self.new ≡ front ++ instr ∷ back }
    {
        self.reversed[following] = instr;
    }

    /// The code in order.
    pub fn into_vec(self) -> Vec<Instr<Symbol>>
        ensures { result.items ≡ self }
    {
        let Code { mut reversed } = self;
        // Objects are kept: none of them holds room for more.
        reversed.shrink_to_fit();
        reversed.reverse();
        reversed
    }
}
