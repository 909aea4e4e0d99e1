//! Groups that are lawful together.

ghost use Rattle.std.specs.Prelude.{◌≡◌, ◌≢◌, ℕ, ◌<◌, ◌≤◌, [], ◌++◌, ◌∷◌, length, slice_get, Some, None, IsTrue, IfOk, IfErr, OnOk, OnErr, IfSome};
ghost use Rattle.world_model.specs.Groups.{is_well_formed, group_limit};
ghost use Rattle.group_rules.specs.declared.refused.FamilyRefused.TheVariants as refused;
ghost use Rattle.group_rules.specs.Families.{AreLawfulTogether, same_in, conflict_in, add_refusal, number_of, groups_with};

use super::FamilyRefused;
use super::relation::{groups_conflict, is_same_group};
use entity_id::OutOfMemory;
use std::alloc::Global;
use std::marker::Model;
use world_model::GroupDecl;

/// The most groups that stand beside each other.
pub const GROUP_LIMIT: u32 = 32;

/// Groups that are lawful together, by number: at most 32, each as [`check`](super::check) wants it, no
/// two with the same lists, and any two apart or nested. A contract sees the list of their declarations,
/// which is lawful (`AreLawfulTogether` in `specs/Families.antt`). (EnTT: the groups that a registry
/// keeps, whose number has no limit.)
#[derive(Debug, Drop)]
pub struct Family {
    decls: Vec<GroupDecl>,
}

impl Model for Family {
    ghost use Rattle.std.specs.Prelude.{List};
    ghost use Rattle.world_model.specs.declared.group.GroupDecl.{GroupDecl};
    ghost use Rattle.group_rules.specs.Families.{AreLawfulTogether};

    ghost Value = { List GroupDecl };

    ghost view = { λ a. a.decls.items };

    ghost invariant = { λ a. AreLawfulTogether a.decls.items };
}

impl Family {
    /// No group. No memory. (EnTT: an `entt::registry` before its first group.)
    pub fn new(alloc: Global) -> Family
        ensures none { result ≡ [] }
        ensures lawful { AreLawfulTogether result }
    {
        Family {
            decls: Vec::new(alloc),
        }
    }

    /// Adds a group that passes [`check`](super::check), and answers its number: that of the group with
    /// the same lists, in any order, where one stands, and then nothing changes; else the next.
    /// `Conflict` exactly where no such group stands and one conflicts with the new one: the least is
    /// named. Else `TooMany` exactly where 32 stand; else `OutOfMemory` where there is no memory for one
    /// more. After a refusal all is as before. (EnTT: `registry.group<Owned...>(entt::get<Observed...>,
    /// entt::exclude<Excluded...>)`, which asserts in place of a refusal.)
    pub fn add(&mut self, decl: GroupDecl) -> Result<u32, FamilyRefused>
        requires { IsTrue (is_well_formed decl) }
        ensures ok { IfOk result (λ number. number ≡ number_of self.old decl) }
        ensures groups { OnOk result (self.new ≡ groups_with self.old decl) }
        ensures accepted { OnOk result (add_refusal self.old decl ≡ None) }
        ensures refused { IfErr result (λ cause.
            cause ≢ refused.OutOfMemory → add_refusal self.old decl ≡ Some cause) }
        ensures memory_last { result ≡ Err refused.OutOfMemory → add_refusal self.old decl ≡ None }
        ensures memory_new { result ≡ Err refused.OutOfMemory → same_in self.old decl ≡ None }
        ensures err { OnErr result (self.new ≡ self.old) }
        ensures lawful { AreLawfulTogether self.new }
    {
        if let Some(group) = self.find(&decl)? {
            return Ok(group);
        }
        match self.add_new(decl) {
            Ok(number) => Ok(number),
            Err(OutOfMemory) => Err(FamilyRefused::OutOfMemory),
        }
    }

    /// The number of the group with the same lists, in any order, if there is one. `Conflict` and
    /// `TooMany` exactly where [`Family::add`] answers them. No memory. (This project's own.)
    pub fn find(&self, decl: &GroupDecl) -> Result<Option<u32>, FamilyRefused>
        ensures ok { IfOk result (λ group. group ≡ same_in self.now decl.now) }
        ensures accepted { OnOk result (add_refusal self.now decl.now ≡ None) }
        ensures refused { IfErr result (λ cause. add_refusal self.now decl.now ≡ Some cause) }
        ensures lawful { AreLawfulTogether self.now }
    {
        if let Some(group) = same_in(&self.decls, decl) {
            return Ok(Some(group as u32));
        }
        if let Some(with) = conflict_in(&self.decls, decl) {
            return Err(FamilyRefused::Conflict { with: with as u32 });
        }
        if self.len() >= GROUP_LIMIT {
            return Err(FamilyRefused::TooMany);
        }
        Ok(None)
    }

    /// Adds a group that passes [`check`](super::check), and that [`Family::find`] neither finds nor
    /// refuses, and answers its number, the next. After the refusal all is as before. Takes memory.
    /// (This project's own.)
    pub fn add_new(&mut self, decl: GroupDecl) -> Result<u32, OutOfMemory>
        requires formed { IsTrue (is_well_formed decl) }
        requires new { same_in self.old decl ≡ None }
        requires accepted { add_refusal self.old decl ≡ None }
        ensures ok { IfOk result (λ number. number ≡ length self.old) }
        ensures groups { OnOk result (self.new ≡ self.old ++ decl ∷ []) }
        ensures err { OnErr result (self.new ≡ self.old) }
        ensures lawful { AreLawfulTogether self.new }
    {
        let number = self.len();
        self.decls.push(decl)?;
        Ok(number)
    }

    /// The groups, by number. No memory. (This project's own.)
    pub fn as_slice(&self) -> &[GroupDecl]
        ensures groups { result.now ≡ self.now }
        ensures lawful { AreLawfulTogether self.now }
    {
        &self.decls
    }

    /// How many groups there are, at most 32. No memory. (This project's own.)
    pub fn len(&self) -> u32
        ensures len { result ≡ length self.now }
        ensures few { result ≤ group_limit }
        ensures lawful { AreLawfulTogether self.now }
    {
        self.decls.len() as u32
    }

    /// The declaration of a group below [`Family::len`]. No memory. (EnTT: a group's type says it.)
    pub fn decl(&self, group: u32) -> &GroupDecl
        requires { group < length self.now }
        ensures { slice_get self.now group ≡ Some result.now }
    {
        &self.decls[group as usize]
    }
}

// The number of the group that has the same lists, if there is one.
fn same_in(decls: &[GroupDecl], decl: &GroupDecl) -> Option<usize>
    ensures number { result ≡ same_in decls.now decl.now }
    ensures within { IfSome result (λ group. group < length decls.now) }
{
    decls.iter().position(|other| is_same_group(decl, other))
}

// The number of the least group that conflicts with this one, if there is one.
fn conflict_in(decls: &[GroupDecl], decl: &GroupDecl) -> Option<usize>
    ensures number { result ≡ conflict_in decls.now decl.now }
    ensures within { IfSome result (λ group. group < length decls.now) }
{
    decls.iter().position(|other| groups_conflict(decl, other))
}
