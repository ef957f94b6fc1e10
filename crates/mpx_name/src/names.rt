//! Names of contexts: the steps that lead there from the world.
ghost use Rattle.std.specs.Prelude.{◌≡◌, ◌≢◌, ◌<◌, ◌-◌, ◌^◌, ◌↔◌, List, [], ◌∷◌, reverse, length, slice_get, option_copied, IfOk, IfSome, OnErr, OnOk, IsErrOf, IsOkUnless, refl};
ghost use Rattle.std.specs.declared.cmp.Ordering.TheVariants.{Less};
ghost use Rattle.std.specs.Cmp.{IsTotalOrder, partial_equiv_from_equiv, partial_order_from_total, eq_by_cmp_equiv};
ghost use Rattle.std.specs.Cmp.Lexicographic.{slice_cmp};
ghost use Rattle.std.specs.FinMap.{IsAntisymmetric};
ghost use Rattle.std.specs.Ordering.{eq_by_cmp, as_partial_cmp};
ghost use Rattle.join_core.specs.Joins.{never_between, never_joined};
ghost use Rattle.mpx_name.specs.declared.steps.Step.{Step};
ghost use Rattle.mpx_name.specs.declared.steps.Step.TheVariants.{Child, Gathering};
ghost use Rattle.mpx_name.specs.Order.{name_cmp, name_total, name_exact, name_equality, step_cmp};
ghost use Rattle.mpx_name.specs.Kept.{kept};
ghost use Rattle.mpx_name.specs.Name.{IsStep, IsName, is_gathering, parent_of};

use crate::{NameError, Step};
use join_core::{Exact, Key, OutOfMemory};
use mpx_group::Group;
use std::alloc::Global;
use std::cmp::Ordering;
use std::marker::Model;

/// How many steps a name can have.
const DEPTH: usize = 8;

/// The steps that lead from the world to a context, kept oldest first; contracts see the newest first.
/// One step is kept in place.
#[derive(Debug, Drop)]
pub struct Name {
    steps: KeptSteps,
}

// How the steps are kept: of no or one step without memory of their own.
#[derive(Debug, Drop)]
enum KeptSteps {
    None,
    One([Step; 1]),
    Many(Vec<Step>),
}

impl Model for Name {
    ghost Value = { List Step };

    ghost view = { λ n. reverse (kept n.steps) };

    ghost invariant = { λ n. IsName (kept n.steps) };
}

impl Name {
    /// The name of the communicator of all ranks.
    pub fn world(_alloc: Global) -> Self
        ensures { result ≡ [] }
    {
        Name {
            steps: KeptSteps::None,
        }
    }

    /// The name of these steps, the oldest first. It takes no memory.
    pub fn of(steps: Vec<Step>) -> Name
        requires { IsName steps.items }
        ensures { result ≡ reverse steps.items }
    {
        Name {
            steps: kept_steps(steps),
        }
    }

    /// The communicator of this colour that the call with this number on this context makes.
    pub fn child(&self, alloc: Global, call: u32, colour: u32) -> Result<Name, NameError>
        requires call { call < 2 ^ 32 - 1 }
        requires colour { colour < 2 ^ 31 }
        ensures child { IfOk result (λ name. name ≡ Child call colour ∷ self.now) }
        ensures full { IsErrOf result NameError.DepthUsedUp ↔ (length self.now ≡ 8) }
    {
        self.room()?;
        Ok(self.extended(alloc, Step::Child { call, colour })?)
    }

    /// The gathering of these members with this tag below this context.
    pub fn gathering(&self, alloc: Global, tag: u16, members: &Group) -> Result<Name, NameError>
        requires tag { tag < 2 ^ 15 }
        requires members { members.now ≢ [] }
        ensures gathering { IfOk result (λ name. name ≡ Gathering tag members.now ∷ self.now) }
        ensures full { IsErrOf result NameError.DepthUsedUp ↔ (length self.now ≡ 8) }
    {
        self.room()?;
        let members = members.copy(alloc)?;
        // so that the proof knows it to be a group
        let _size = members.size();
        Ok(self.extended(alloc, Step::Gathering { tag, members })?)
    }

    /// The name without its newest step; the world has no parent, which is told without memory.
    pub fn parent(&self, alloc: Global) -> Result<Option<Name>, OutOfMemory>
        ensures parent { IfOk result (λ parent. parent ≡ parent_of self.now) }
        ensures memory { OnErr result (self.now ≢ []) }
    {
        match self.steps().split_last() {
            None => Ok(None),
            Some((_, earlier)) => Ok(Some(Name {
                steps: kept_steps(copied(alloc, earlier)?),
            })),
        }
    }

    /// How many steps it has.
    pub fn depth(&self) -> usize
        ensures depth { result ≡ length self.now }
        ensures name { IsName self.now }
    {
        slice_of(&self.steps).len()
    }

    /// Whether its newest step is a gathering.
    pub fn is_gathering(&self) -> bool
        ensures { result ≡ is_gathering self.now }
    {
        matches!(self.steps().last(), Some(Step::Gathering { .. }))
    }

    /// Step i from 0, the oldest first; none from the depth on.
    pub fn step(&self, i: usize) -> Option<&Step>
        ensures step { option_copied result ≡ slice_get (reverse self.now) i }
        ensures fits { IfSome result (λ step. IsStep step.now) }
    {
        self.steps().get(i)
    }

    /// The steps, the oldest first.
    pub fn steps(&self) -> &[Step]
        ensures value { result.now ≡ reverse self.now }
        ensures name { IsName result.now }
    {
        slice_of(&self.steps)
    }

    fn room(&self) -> Result<(), NameError>
        ensures full { IsErrOf result NameError.DepthUsedUp ↔ (length self.now ≡ 8) }
        ensures only_full { IsOkUnless result NameError.DepthUsedUp }
        ensures room { OnOk result (length self.now < 8) }
    {
        if self.depth() == DEPTH {
            return Err(NameError::DepthUsedUp);
        }
        Ok(())
    }

    fn extended(&self, alloc: Global, step: Step) -> Result<Name, OutOfMemory>
        requires room { length self.now < 8 }
        requires fits { IsStep step }
        ensures { IfOk result (λ name. name ≡ step ∷ self.now) }
    {
        if self.steps().is_empty() {
            return Ok(Name {
                steps: KeptSteps::One([step]),
            });
        }
        let mut steps = copied(alloc, self.steps())?;
        steps.push(step)?;
        Ok(Name {
            steps: KeptSteps::Many(steps),
        })
    }
}

fn slice_of(steps: &KeptSteps) -> &[Step]
    ensures { result.now ≡ kept steps.now }
{
    match steps {
        KeptSteps::None => &[],
        KeptSteps::One(one) => one,
        KeptSteps::Many(steps) => steps.as_slice(),
    }
}

// The same steps; the vector of one step or none is let go.
fn kept_steps(mut steps: Vec<Step>) -> KeptSteps
    ensures { kept result ≡ steps.items }
{
    if steps.len() > 1 {
        return KeptSteps::Many(steps);
    }
    match steps.pop() {
        None => KeptSteps::None,
        Some(step) => KeptSteps::One([step]),
    }
}

// The order of any two names. Most have no step, or one to a child: these are compared where names are looked for.
#[inline(never)]
fn order_of(mine: &[Step], theirs: &[Step]) -> Ordering
    ensures { result ≡ slice_cmp step_cmp mine.now theirs.now }
{
    mine.cmp(theirs)
}

fn copied(alloc: Global, steps: &[Step]) -> Result<Vec<Step>, OutOfMemory>
    ensures { IfOk result (λ made. made.items ≡ steps.now) }
{
    let mut made = Vec::new(alloc);
    for step in steps {
        made.push(step.copy(alloc)?)?;
    }
    Ok(made)
}

impl Ord for Name {
    ghost cmp = { name_cmp };

    ghost total = { name_total };

    ghost matches_partial_cmp = { λ a b. refl };

    ghost matches_eq = { λ a b. refl };

    fn cmp(&self, other: &Name) -> Ordering {
        match (&self.steps, &other.steps) {
            (KeptSteps::None, KeptSteps::None) => Ordering::Equal,
            (KeptSteps::None, KeptSteps::One([_step])) => Ordering::Less,
            (KeptSteps::One([_step]), KeptSteps::None) => Ordering::Greater,
            (
                KeptSteps::One([Step::Child { call, colour }]),
                KeptSteps::One([Step::Child { call: k, colour: c }]),
            ) => call.cmp(k).then(colour.cmp(c)),
            _ => order_of(self.steps(), other.steps()),
        }
    }
}

impl PartialOrd for Name {
    ghost partial_cmp = { as_partial_cmp name_cmp };

    ghost laws = { partial_order_from_total name_total };

    fn partial_cmp(&self, other: &Name) -> Option<Ordering> {
        Some(self.cmp(other))
    }
}

impl PartialEq for Name {
    ghost eq = { eq_by_cmp name_cmp };

    ghost laws = { partial_equiv_from_equiv (eq_by_cmp_equiv name_total) };

    fn eq(&self, other: &Name) -> bool {
        self.cmp(other) == Ordering::Equal
    }
}

impl Eq for Name {
    ghost laws = { eq_by_cmp_equiv name_total };
}

impl Exact for Name {
    ghost View = { List Step };

    ghost view = { λ n. n };

    ghost equal = { eq_by_cmp name_cmp };

    ghost joining = { never_joined };

    ghost between = { never_between };

    fn same(&self, other: &Name) -> bool {
        *self == *other
    }

    fn copy(&self, alloc: Global) -> Result<Name, OutOfMemory> {
        let steps = match &self.steps {
            KeptSteps::None => KeptSteps::None,
            KeptSteps::One([step]) => KeptSteps::One([step.copy(alloc)?]),
            KeptSteps::Many(steps) => KeptSteps::Many(copied(alloc, steps)?),
        };
        Ok(Name { steps })
    }

    ghost equality = { name_equality };
}

impl Key for Name {
    ghost one_form = { λ a b e. e };

    ghost exact_order = { name_exact };
}

/// Names stand in a strict total order, in which equal means the same steps and a name comes before its
/// extensions.
pub fn name_order()
    ensures total { IsTotalOrder name_cmp }
    ensures exact { IsAntisymmetric name_cmp }
    ensures extension { (name : List Step) (step : Step) → name_cmp name (step ∷ name) ≡ Less }
{}
