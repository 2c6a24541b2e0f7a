ghost use Rattle.std.specs.Prelude.{◌≡◌, IfNone, IfOk, IfSome, OnOk, Some, None, [], ◌∷◌, ◌++◌, length, map, nat_eq};
ghost use Rattle.std.specs.Map.{lookup};
ghost use Rattle.types_rules.specs.Scope.{bound, duration_in, entered, found, found_here, found_outside, getchar_type, in_block, innermost, is_among, is_array, left, nothing_yet, putchar_type, routine_of, started, with_definition, with_loop, with_marker, with_object, with_routine, with_type, without_innermost};

use super::known::{Known, narrow};
use c_tree::expression::NameId;
use indexmap::{IndexMap, IndexSet};
use std::alloc::{AllocError, Global};
use std::marker::Model;
use std::mem::replace;
use types_rules::scope::{Binding, ParamType, Routine};
use types_tree::expression::ObjectId;
use types_tree::variable::{Duration, Extent, Variable};
use types_value::Kind;
use wcc_base::Items;

/// What is visible at a node.
#[derive(Drop)]
pub struct Table {
    known: Known,
    outer: Vec<IndexMap<u32, Binding>>,
    scope: IndexMap<u32, Binding>,
    routines: IndexMap<u32, Routine>,
    defined: IndexSet<u32>,
    variables: Vec<Variable>,
    loops: u32,
    markers: u32,
}

impl Model for Table {
    ghost use Rattle.std.specs.Prelude.{map};
    ghost use Rattle.types_rules.specs.Scope.{Around};

    ghost Value = { Around };

    ghost view = { λ t. record {
      outline = t.known;
      outer = map (λ scope. scope.entries) t.outer.items;
      scope = t.scope.entries;
      routines = t.routines.entries;
      defined = t.defined.keys;
      variables = t.variables.items;
      loops = t.loops;
      markers = t.markers;
    } };
}

/// The type of `getchar`.
fn no_params(alloc: Global) -> Routine
    ensures { result ≡ getchar_type }
{
    Routine {
        result: Kind::Int,
        params: Items::new(Vec::new(alloc)),
    }
}

/// The type of `putchar`.
fn one_int(alloc: Global) -> Result<Routine, AllocError>
    ensures { IfOk result (λ routine. routine ≡ putchar_type) }
{
    let mut params = Vec::new(alloc);
    params.push(ParamType {
        kind: Kind::Int,
        is_array: false,
        is_const: false,
    })?;
    Ok(Routine {
        result: Kind::Int,
        params: Items::new(params),
    })
}

/// What a name stands for in one scope.
fn look(scope: &IndexMap<u32, Binding>, name: u32) -> Option<Binding>
    ensures { result ≡ lookup (nat_eq name) scope.now.entries }
{
    match scope.get(&name) {
        Some(binding) => Some(*binding),
        None => None,
    }
}

/// What a name stands for in these scopes, the outermost first.
fn look_outside(scopes: &[IndexMap<u32, Binding>], name: u32) -> Option<Binding>
    ensures { result ≡ found_outside name (map (λ scope. scope.entries) scopes.now) }
{
    let mut found = None;
    for scope in scopes {
        if let Some(binding) = look(scope, name) {
            found = Some(binding);
        }
    }
    found
}

fn duration(block: bool) -> Duration
    ensures { result ≡ duration_in block }
{
    if block {
        Duration::Automatic
    } else {
        Duration::Static
    }
}

fn is_array(extent: Extent) -> bool
    ensures { result ≡ is_array extent }
{
    !matches!(extent, Extent::Scalar)
}

#[tactic(auto, using(crate::proofs::Scopes::bound_is))]
fn bind(scope: &mut IndexMap<u32, Binding>, name: u32, binding: Binding) -> Result<(), AllocError>
    ensures { OnOk result (scope.new.entries ≡ bound scope.old.entries name binding) }
{
    scope.insert(name, binding)?;
    Ok(())
}

fn keep(variables: &mut Vec<Variable>, variable: Variable) -> Result<(), AllocError>
    ensures { OnOk result (variables.new.items ≡ variables.old.items ++ variable ∷ []) }
{
    variables.push(variable)?;
    Ok(())
}

/// Notes the type of a function of which none is noted.
fn add(routines: &mut IndexMap<u32, Routine>, name: u32, routine: Routine) -> Result<(), AllocError>
    requires { lookup (nat_eq name) routines.old.entries ≡ None }
    ensures { OnOk result (routines.new.entries ≡ routines.old.entries ++ (name, routine) ∷ []) }
{
    routines.insert(name, routine)?;
    Ok(())
}

/// Notes the type of a function, unless one is noted.
fn note(
    routines: &mut IndexMap<u32, Routine>,
    name: u32,
    routine: Routine,
) -> Result<(), AllocError>
    ensures { OnOk result (routines.new.entries ≡ with_type (lookup (nat_eq name) routines.old.entries) name routine routines.old.entries) }
{
    if routines.contains_key(&name) {
        drop(routine);
        return Ok(());
    }
    add(routines, name, routine)
}

/// The innermost of these scopes, which is taken away.
fn pop(scopes: &mut Vec<IndexMap<u32, Binding>>, alloc: Global) -> IndexMap<u32, Binding>
    ensures scope { result.entries ≡ innermost (map (λ scope. scope.entries) scopes.old.items) }
    ensures rest { map (λ scope. scope.entries) scopes.new.items ≡ without_innermost (map (λ scope. scope.entries) scopes.old.items) }
{
    match scopes.pop() {
        Some(scope) => scope,
        None => IndexMap::new(alloc),
    }
}

impl Table {
    /// Nothing but `getchar` and `putchar`.
    pub fn new(known: Known, alloc: Global) -> Result<Table, AllocError>
        ensures { IfOk result (λ table. table ≡ started known) }
    {
        let mut table = Table::empty(known, alloc);
        match table.introduce_library(alloc) {
            Ok(()) => Ok(table),
            Err(memory) => {
                drop(table);
                Err(memory)
            }
        }
    }

    /// Declares `getchar` and `putchar`.
    fn introduce_library(&mut self, alloc: Global) -> Result<(), AllocError>
        ensures { OnOk result (self.new ≡ with_routine self.old.outline.putchar putchar_type (with_routine self.old.outline.getchar getchar_type self.old)) }
    {
        let (getchar, putchar) = (self.known.getchar(), self.known.putchar());
        let routine = one_int(alloc)?;
        self.introduce(getchar, no_params(alloc))?;
        self.introduce(putchar, routine)
    }

    fn empty(known: Known, alloc: Global) -> Table
        ensures { result ≡ nothing_yet known }
    {
        Table {
            known,
            outer: Vec::new(alloc),
            scope: IndexMap::new(alloc),
            routines: IndexMap::new(alloc),
            defined: IndexSet::new(alloc),
            variables: Vec::new(alloc),
            loops: 0,
            markers: 0,
        }
    }

    /// What a name stands for by a declaration in this very scope.
    pub fn found_here(&self, name: u32) -> Option<Binding>
        ensures { result ≡ found_here name self.now }
    {
        look(&self.scope, name)
    }

    /// What a name stands for.
    pub fn found(&self, name: u32) -> Option<Binding>
        ensures { result ≡ found name self.now }
    {
        match look(&self.scope, name) {
            Some(binding) => Some(binding),
            None => look_outside(&self.outer, name),
        }
    }

    pub fn in_block(&self) -> bool
        ensures { result ≡ in_block self.now }
    {
        !self.outer.is_empty()
    }

    pub fn known(&self) -> &Known
        ensures { result.now ≡ self.now.outline }
    {
        &self.known
    }

    /// The type of a function, wherever it was declared.
    pub fn routine(&self, name: u32) -> Option<&Routine>
        ensures some { IfSome result (λ routine. routine_of name self.now ≡ Some routine.now) }
        ensures none { IfNone result (routine_of name self.now ≡ None) }
    {
        self.routines.get(&name)
    }

    /// The number of the next object.
    pub fn objects(&self) -> usize
        ensures { result ≡ length self.now.variables }
    {
        self.variables.len()
    }

    /// The number of the next function that is defined.
    pub fn functions(&self) -> usize
        ensures { result ≡ length self.now.defined }
    {
        self.defined.len()
    }

    pub fn loops(&self) -> u32
        ensures { result ≡ self.now.loops }
    {
        self.loops
    }

    pub fn markers(&self) -> u32
        ensures { result ≡ self.now.markers }
    {
        self.markers
    }

    /// Whether a function of this name was defined already.
    pub fn is_defined(&self, name: u32) -> bool
        ensures { result ≡ is_among name self.now.defined }
    {
        self.defined.contains(&name)
    }

    /// The objects, in the order of their numbers. It takes no memory.
    pub fn into_variables(self) -> Vec<Variable>
        ensures { result.items ≡ self.variables }
    {
        self.variables
    }

    /// Counts a loop.
    pub fn count_loop(&mut self) -> Result<(), AllocError>
        ensures { OnOk result (self.new ≡ with_loop self.old) }
    {
        self.loops = self.loops.checked_add(1).ok_or(AllocError)?;
        Ok(())
    }

    /// Counts a marker.
    pub fn count_marker(&mut self) -> Result<(), AllocError>
        ensures { OnOk result (self.new ≡ with_marker self.old) }
    {
        self.markers = self.markers.checked_add(1).ok_or(AllocError)?;
        Ok(())
    }

    /// Declares an object, which has the next number.
    pub fn declare(
        &mut self,
        name: u32,
        kind: Kind,
        is_const: bool,
        extent: Extent,
    ) -> Result<(), AllocError>
        ensures { OnOk result (self.new ≡ with_object name kind is_const extent self.old) }
    {
        let number = narrow(self.variables.len())?;
        let variable = Variable {
            name: NameId(name),
            kind,
            extent,
            duration: duration(self.in_block()),
        };
        let binding = Binding::Object {
            number: ObjectId(number),
            kind,
            is_const,
            is_array: is_array(extent),
        };
        bind(&mut self.scope, name, binding)?;
        keep(&mut self.variables, variable)
    }

    /// Declares a function, whose first declaration gives its type.
    pub fn introduce(&mut self, name: u32, routine: Routine) -> Result<(), AllocError>
        ensures { OnOk result (self.new ≡ with_routine name routine self.old) }
    {
        bind(&mut self.scope, name, Binding::Function)?;
        note(&mut self.routines, name, routine)
    }

    /// Notes the definition of a function.
    pub fn define(&mut self, name: u32) -> Result<(), AllocError>
        ensures { OnOk result (self.new ≡ with_definition name self.old) }
    {
        self.defined.insert(name)?;
        Ok(())
    }

    /// Enters a block.
    pub fn enter(&mut self, alloc: Global) -> Result<(), AllocError>
        ensures { OnOk result (self.new ≡ entered self.old) }
    {
        let outside = replace(&mut self.scope, IndexMap::new(alloc));
        self.outer.push(outside)?;
        Ok(())
    }

    /// Leaves a block.
    pub fn leave(&mut self, alloc: Global)
        ensures { self.new ≡ left self.old }
    {
        self.scope = pop(&mut self.outer, alloc);
    }
}
