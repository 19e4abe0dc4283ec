//! Laws of assembler text, each the contract of a function that does nothing.
ghost use Rattle.std.specs.Prelude.{◌≡◌, ◌≢◌, List, ℕ, Result, Err};
ghost use Rattle.cl_lines.specs.Lines.{Numbered};
ghost use Rattle.cl_classfile.specs.Structure.{Structure};
ghost use Rattle.cl_writer.specs.declared.fault.AssembleFault.{AssembleFault};
ghost use Rattle.cl_writer.specs.declared.fault.AssembleFault.TheVariants.{Memory};
ghost use Rattle.cl_writer.specs.declared.statement.ClassLine.{ClassLine};
ghost use Rattle.cl_writer.specs.declared.statement.Statement.{Statement};
ghost use Rattle.cl_writer.specs.Statements.{IsClassLine, Says};
ghost use Rattle.cl_writer.specs.Assemblies.{ListedClass, IsRead};
ghost use Rattle.cl_writer.specs.Assembled.{AssembleOf};

/// A line says one thing at most, and so do the lines of a text.
pub fn says_one_thing()
    ensures class { (words : List (List ℕ)) (a b : ClassLine) → IsClassLine words a
        → IsClassLine words b → a ≡ b }
    ensures line { (words : List (List ℕ)) (a b : Statement) → Says words a → Says words b → a ≡ b }
    ensures lines { (lines : List Numbered) (a b : ListedClass) → IsRead lines a → IsRead lines b
        → a ≡ b }
{}

/// Unless memory runs out, a text has one answer: the one file that it is assembled to, or its one fault.
pub fn assembles_to_one_answer()
    ensures some { (lines : List Numbered) → (r : Result Structure AssembleFault) × (r ≢ Err Memory)
        × AssembleOf lines r }
    ensures one { (lines : List Numbered) (r s : Result Structure AssembleFault)
        → AssembleOf lines r → AssembleOf lines s → r ≢ Err Memory → s ≢ Err Memory → r ≡ s }
{}
