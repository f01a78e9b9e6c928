//! Laws of registers. Each function does nothing; its contract is the law, and the checker proves it.
ghost use Rattle.std.specs.Prelude.{◌≡◌, List};
ghost use Rattle.mx_book.specs.commands.Act.{Entry};
ghost use Rattle.mx_book.specs.Book.{IsBook};
ghost use Rattle.mx_registers.specs.declared.merge.Registers.{Registers};
ghost use Rattle.mx_registers.specs.Registers.{AreRegistersOf};

/// Registers are those of at most one book.
pub fn registers_decide_the_book()
    ensures { (registers : Registers) (one other : List Entry) → AreRegistersOf registers one
        → AreRegistersOf registers other → IsBook one → IsBook other → one ≡ other }
{}
