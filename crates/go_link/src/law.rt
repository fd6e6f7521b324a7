//! What holds of linked packages.
ghost use Rattle.std.specs.Prelude.{◌≡◌, ℕ, List, Some, None, codes, slice_get};
ghost use Rattle.go_code.specs.Packages.{Object, PackageFunction};
ghost use Rattle.go_symbol.specs.Symbols.{Symbol};
ghost use Rattle.go_code.specs.declared.instr.CallInstr.TheVariants.{Call};
ghost use Rattle.go_code.specs.declared.instr.Instr.TheVariants.{Calls, Global};
ghost use Rattle.go_code.specs.declared.instr.AccessInstr.{AccessInstr};
ghost use Rattle.go_code.specs.Referred.{reference_of};
ghost use Rattle.go_link.specs.Found.{Found, IsDeclared, Placed};
ghost use Rattle.go_link.specs.Links.{code_of, last_object, link_refusal, object_symbol};

/// The number of a package's function is that of a function with its path and its name.
pub fn law_functions_are_found()
    ensures { (packages : List Object) (o : Object) (f : PackageFunction) → IsDeclared packages o f → Found packages (object_symbol o f.name) }
{}

/// A call in linked packages goes to a function with the path and the name that the call names.
pub fn law_calls_are_found()
    ensures { (packages : List Object) (i j : ℕ) (o : Object) (s : Symbol) → link_refusal packages ≡ None
        → slice_get packages i ≡ Some o → slice_get (code_of o) j ≡ Some (Calls (Call s)) → Found packages s }
{}

/// What a linked package reads or changes of package variables has the place of a variable with the
/// path and the name that it says, from which its zero cells lie.
pub fn law_variables_are_found()
    ensures { (packages : List Object) (i j : ℕ) (o : Object) (a : AccessInstr Symbol) → link_refusal packages ≡ None
        → slice_get packages i ≡ Some o → slice_get (code_of o) j ≡ Some (Global a) → Placed packages (reference_of a) }
{}

/// The last of linked packages has a function main, which is in the image.
pub fn law_main_is_found()
    ensures { (packages : List Object) (o : Object) → link_refusal packages ≡ None → last_object packages ≡ Some o
        → Found packages (object_symbol o (codes "main")) }
{}
