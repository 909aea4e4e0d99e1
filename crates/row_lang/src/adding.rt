//! One line more in a system: whether it is admissible behind the lines before it, and what it adds.

ghost use Rattle.std.specs.Prelude.{◌≡◌, ◌≢◌, ◌≤◌, ℕ, List, ◌∷◌, [], ◌++◌, length, codes, IfOk, OnOk, OnErr, IsErrOf};
ghost use Rattle.world_model.specs.declared.component.Decl.{Decl as AnyDecl};
ghost use Rattle.row_lang.specs.declared.access_list.AccessList.{AccessList as AnyList};
ghost use Rattle.row_lang.specs.BodyLines.{BodyLine};
ghost use Rattle.row_lang.specs.Drafts.{TakesLine, RefusesLine, RefusesLineWithin, added_of};
ghost use Rattle.row_lang.specs.Naming.{AreNamedDecls};
ghost use Rattle.row_lang.specs.Spelling.{list_word, line_limit};
ghost use Rattle.row_lang.specs.Systems.{IsDraftOf, command_count};

use super::draft::{COMMAND_LIMIT, LINE_LIMIT, STATEMENT_LIMIT};
use super::name_lists::{kept, take_some_names};
use super::taking::read_do;
use super::{AccessList, Added, LineFault, Part, Statement, SystemDraft};
use world_model::Decl;

impl SystemDraft {
    /// Reads the next line of the system, without its end, under the components that the lines before it
    /// were read under. `Bad` exactly where the line isn't admissible behind them, as where it has more
    /// than 4,096 bytes, or the system is closed. `OutOfMemory` where memory for the line runs out. After
    /// a refusal the draft is as before.
    pub fn add(&mut self, line: &[u8], decls: &[Decl]) -> Result<Added, LineFault>
        requires named { AreNamedDecls decls.now }
        ensures ok { OnOk result (TakesLine decls.now self.old line.now self.new) }
        ensures added { IfOk result (λ added. added ≡ added_of self.new) }
        ensures bad { IsErrOf result LineFault.Bad → RefusesLine decls.now self.old line.now }
        ensures err { OnErr result (self.new ≡ self.old) }
        ensures draft { OnOk result ((name : List ℕ) (lines : List BodyLine) →
            IsDraftOf decls.now name lines self.old →
            (line : BodyLine) × IsDraftOf decls.now name (lines ++ line ∷ []) self.new) }
    {
        // No draft has more command statements than that.
        let _ = &self.part;
        self.add_within(line, decls, COMMAND_LIMIT)
    }

    /// Reads the next line as [`SystemDraft::add`] does, in a document that has room for so many command
    /// statements in this system: `Bad` also where the line would be one too many.
    pub fn add_within(
        &mut self,
        line: &[u8],
        decls: &[Decl],
        commands: u32,
    ) -> Result<Added, LineFault>
        requires named { AreNamedDecls decls.now }
        requires within { command_count self.old.system.statements ≤ commands }
        ensures ok { OnOk result (TakesLine decls.now self.old line.now self.new) }
        ensures commands { OnOk result (command_count self.new.system.statements ≤ commands) }
        ensures added { IfOk result (λ added. added ≡ added_of self.new) }
        ensures bad { IsErrOf result LineFault.Bad →
            RefusesLineWithin decls.now commands self.old line.now }
        ensures err { OnErr result (self.new ≡ self.old) }
        ensures draft { OnOk result ((name : List ℕ) (lines : List BodyLine) →
            IsDraftOf decls.now name lines self.old →
            (line : BodyLine) × IsDraftOf decls.now name (lines ++ line ∷ []) self.new) }
    {
        if line.len() > LINE_LIMIT {
            return Err(LineFault::Bad);
        }
        if let Some((list, names)) = AccessList::of_line(line) {
            self.add_list(list, names, decls)?;
            return Ok(Added::More);
        }
        if line == b"end".as_slice() {
            self.close()?;
            return Ok(Added::Closed);
        }
        self.add_statement(line, decls, commands)?;
        Ok(Added::More)
    }

    // Adds a list, of which the names stand behind its word.
    fn add_list(&mut self, list: AccessList, names: &[u8], decls: &[Decl]) -> Result<(), LineFault>
        requires named { AreNamedDecls decls.now }
        requires short { length (list_word list ++ names.now) ≤ line_limit }
        ensures ok { OnOk result
            (TakesLine decls.now self.old (list_word list ++ names.now) self.new) }
        ensures same { OnOk result (self.new.system.statements ≡ self.old.system.statements) }
        ensures added { OnOk result (added_of self.new ≡ Added.More) }
        ensures bad { IsErrOf result LineFault.Bad →
            RefusesLine decls.now self.old (list_word list ++ names.now) }
        ensures err { OnErr result (self.new ≡ self.old) }
    {
        if !self.part.may_list(list) {
            return Err(LineFault::Bad);
        }
        let (pools, rest) = take_some_names(self.def.allocator(), decls, &[], names)?;
        if !rest.is_empty() {
            return Err(LineFault::Bad);
        }
        if !list.has_room(self.def.access(), &pools) {
            return Err(LineFault::Bad);
        }
        self.def.set_list(list, kept(pools));
        self.part = Part::of_list(list);
        Ok(())
    }

    // Adds a line that is neither a list's nor the last.
    fn add_statement(&mut self, line: &[u8], decls: &[Decl], commands: u32) -> Result<(), LineFault>
        requires named { AreNamedDecls decls.now }
        requires within { command_count self.old.system.statements ≤ commands }
        requires short { length line.now ≤ line_limit }
        requires no_list { (list : AnyList) (rest : List ℕ) → line.now ≢ list_word list ++ rest }
        requires no_end { line.now ≢ codes "end" }
        ensures ok { OnOk result (TakesLine decls.now self.old line.now self.new) }
        ensures commands { OnOk result (command_count self.new.system.statements ≤ commands) }
        ensures added { OnOk result (added_of self.new ≡ Added.More) }
        ensures bad { IsErrOf result LineFault.Bad →
            RefusesLineWithin decls.now commands self.old line.now }
        ensures err { OnErr result (self.new ≡ self.old) }
    {
        if !self.part.may_do() || self.def.statements().len() >= STATEMENT_LIMIT {
            return Err(LineFault::Bad);
        }
        let tokens = read_do(self.def.allocator(), decls, self.def.access(), line)?;
        let statement = Statement::from_vec(tokens);
        let is_command = statement.is_command();
        if is_command && self.def.commands() >= commands.min(COMMAND_LIMIT) {
            return Err(LineFault::Bad);
        }
        self.def.push(statement, is_command)?;
        self.part = Part::Do;
        Ok(())
    }

    // Adds the last line. No memory.
    fn close(&mut self) -> Result<(), LineFault>
        ensures ok { OnOk result
            ((decls : List AnyDecl) → TakesLine decls self.old (codes "end") self.new) }
        ensures same { OnOk result (self.new.system ≡ self.old.system) }
        ensures added { OnOk result (added_of self.new ≡ Added.Closed) }
        ensures bad { IsErrOf result LineFault.Bad → (decls : List AnyDecl) →
            RefusesLine decls self.old (codes "end") }
        ensures err { OnErr result (self.new ≡ self.old) }
    {
        if !self.part.may_do() {
            return Err(LineFault::Bad);
        }
        self.part = Part::Closed;
        Ok(())
    }
}
