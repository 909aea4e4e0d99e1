//! Which systems may run.

ghost use Rattle.std.specs.Prelude.{List};
ghost use Rattle.world_model.specs.declared.component.Decl.{Decl};
ghost use Rattle.row_lang.specs.Naming.{AreNamedDecls};
ghost use Rattle.row_lang.specs.Systems.{System, IsSystem};
ghost use Rattle.system_eval.specs.Runs.{IsRunnable};

/// Every system that lines stand for may run, under components as a document declares them. No memory.
pub fn systems_of_lines_may_run()
    ensures { (decls : List Decl) (system : System) →
        AreNamedDecls decls → IsSystem decls system → IsRunnable system }
{}
