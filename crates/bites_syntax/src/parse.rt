//! The parser of patterns.

ghost use Rattle.std.specs.Prelude.{◌≡◌, ◌≢◌, ◌++◌, ◌≤◌, ◌<◌, ◌⊎◌, ◌∷◌, [], ℕ, suc, List, chars, true, IfOk, IfErr, MatchResult, Ok, OnOk};
ghost use Rattle.bites_spec.specs.Message as message;
ghost use Rattle.bites_spec.specs.Pattern as pattern;
ghost use Rattle.bites_spec.specs.Pattern.{left_parenthesis, right_parenthesis, skip};
ghost use Rattle.bites_spec.specs.RangesOf.{ranges_of};
ghost use Rattle.bites_spec.specs.Reader.{and_then, at_item, at_opened, at_operator, counted, inner, lazy, opened, plain_operator, read, repeat_last};
ghost use Rattle.bites_spec.specs.Grammar.{Reading, group_of, literal_of};
ghost use Rattle.bites_spec.specs.Group.{Opening};
ghost use Rattle.bites_spec.specs.Tree as spec;
ghost use Rattle.bites_spec.specs.Tree.{alternation_of, sequence_of};
ghost use Rattle.bites_syntax.specs.Atoms.{atom, begins_atom};
ghost use Rattle.bites_syntax.specs.Nodes.{AreNodes, IsNumbered, IsNodeOf};
ghost use Rattle.bites_syntax.specs.Progress.{HasDepth, IsAt, IsChoice, IsForward, ReadsItem, ReadsItems, Steps, ends_items};
ghost use Rattle.bites_syntax.specs.Operators.{bounds_of};
ghost use Rattle.bites_syntax.specs.Parts.{ForEnoughSteps, IsFaultOf, ReadsOn, fault_at};
ghost use Rattle.bites_syntax.specs.Openings.{IsStateOf};
ghost use Rattle.bites_syntax.specs.FlagsView.{flags_of};
ghost use Rattle.bites_spec.specs.Message.{Message};
ghost use Rattle.bites_spec.specs.Built.{IsCompilable};
ghost use Rattle.bites_spec.specs.Fault.{Fault};
ghost use Rattle.bites_spec.specs.Measure.{groups_opened, height, IsTooTall, Limits};
ghost use Rattle.bites_text.specs.Messages.{error_of};

use crate::atom::{atom, literal};
use crate::cursor::Cursor;
pub use crate::flags::Flags;
use crate::group::{Opened, ParserState, open_group};
use crate::group_names::Names;
pub use crate::groups::Groups;
use crate::node::{Node, Numbered, alternation_of, group_of, repetition_of, sequence_of};
use crate::operator::{Bounds, counted, plain_operator};
use crate::refusal::Refusal;
use crate::tree::Tree;
use bites_text::error::Error;
use std::alloc::{AllocError, Global};
use std::mem;

/// A choice that is being read, which is branches with bars between them: those that are complete, and the nodes of the
/// one that is being read.
#[derive(Drop)]
struct Branches {
    complete: Vec<Node>,
    nodes: Vec<Node>,
}

/// A group that is open.
#[derive(Drop)]
struct OpenGroup {
    /// The flags in force before it.
    flags: Flags,
    /// None for a group without a number.
    numbered: Option<Numbered>,
}

/// What one step reads.
#[derive(Drop)]
enum Step {
    /// A whole item, or a bar.
    Item,
    /// What opens a group.
    Group(OpenGroup),
    /// Nothing: the choice ends here.
    End,
}

/// The cursor and the state of a pattern that is being read.
#[derive(Drop)]
struct Parser<'a> {
    alloc: Global,
    /// How many groups may be open at once, and how tall a tree may be.
    limit: u32,
    cursor: Cursor<'a>,
    state: ParserState,
}

/// The initial capacity of each branch after a bar. Most branches have no more nodes, so their list never moves.
const BRANCH_ROOM: usize = 8;

impl Branches {
    fn new(alloc: Global) -> Branches
        ensures complete { result.complete.items ≡ [] }
        ensures nodes { result.nodes.items ≡ [] }
    {
        Branches {
            complete: Vec::new(alloc),
            nodes: Vec::new(alloc),
        }
    }

    /// Adds the node of a character that stands for itself.
    fn push_literal(&mut self, flags: Flags, c: char) -> Result<(), AllocError>
        ensures complete { self.new.complete.items ≡ self.old.complete.items }
        ensures nodes { OnOk result ((limit : ℕ) → (ts : List spec.Tree) →
            AreNodes limit self.old.nodes.items ts →
            AreNodes limit self.new.nodes.items (ts ++ literal_of (flags_of flags) c ∷ [])) }
    {
        self.nodes.push(Node::leaf(literal(flags, c)))?;
        Ok(())
    }

    /// Ends a branch at a bar. Its nodes become a complete branch.
    fn end_branch(&mut self, alloc: Global, limit: u32) -> Result<(), AllocError>
        ensures { (bs ts : List spec.Tree) → AreNodes limit self.old.complete.items bs →
            AreNodes limit self.old.nodes.items ts →
            IfOk result (λ _. AreNodes limit self.new.complete.items (bs ++ sequence_of ts ∷ [])
            × (self.new.nodes.items ≡ [])) }
    {
        let next = Vec::with_capacity(alloc, BRANCH_ROOM)?;
        let nodes = mem::replace(&mut self.nodes, next);
        let branch = sequence_of(alloc, nodes, limit)?;
        self.complete.push(branch)?;
        Ok(())
    }

    /// Returns the alternation of the complete branches and of the last one, whose nodes these are. A branch alone is
    /// returned unchanged.
    fn into_alternation(self, alloc: Global, limit: u32) -> Result<Node, AllocError>
        ensures { (bs ts : List spec.Tree) → AreNodes limit self.complete.items bs →
            AreNodes limit self.nodes.items ts →
            IfOk result (λ node. IsNodeOf limit node (alternation_of (bs ++ sequence_of ts ∷ []))) }
    {
        let Branches {
            mut complete,
            nodes,
        } = self;
        let last = sequence_of(alloc, nodes, limit)?;
        if complete.is_empty() {
            return Ok(last);
        }
        complete.push(last)?;
        alternation_of(alloc, complete, limit)
    }

    /// Repeats the last node.
    fn repeat(&mut self, alloc: Global, limit: u32, bounds: Bounds) -> Result<(), AllocError>
        ensures complete { self.new.complete.items ≡ self.old.complete.items }
        ensures nodes { (t : spec.Tree) → (ts : List spec.Tree) →
            AreNodes limit self.old.nodes.items (t ∷ ts) →
            IfOk result
            (λ _. AreNodes limit self.new.nodes.items (repeat_last (bounds_of bounds) t ts)) }
    {
        if let Some(node) = self.nodes.pop() {
            let node = repetition_of(alloc, bounds, node, limit)?;
            self.nodes.push(node)?;
        }
        Ok(())
    }
}

/// Adds the node of a group whose choice is read, and returns the flags after the group.
fn close_group(
    alloc: Global,
    branches: &mut Branches,
    group: OpenGroup,
    choice: Node,
    limit: u32,
) -> Result<Flags, AllocError>
    ensures complete { branches.new.complete.items ≡ branches.old.complete.items }
    ensures flags { IfOk result (λ flags. flags ≡ group.flags) }
    ensures nodes { (opening : Opening) → (before : ℕ) → (bs ts : List spec.Tree) →
        IsNumbered group.numbered opening before → IsNodeOf limit choice (alternation_of bs) →
        AreNodes limit branches.old.nodes.items ts →
        IfOk result
        (λ _.
        AreNodes limit branches.new.nodes.items
        (ts ++ group_of opening before bs ∷ [])) }
{
    let node = group_of(alloc, group.numbered, choice, limit)?;
    branches.nodes.push(node)?;
    Ok(group.flags)
}

/// Returns whether the character begins a class, an escape, a dot, `^` or `$`.
fn begins_atom(c: char) -> bool
    ensures { result ≡ begins_atom c }
{
    matches!(c, '[' | '\\' | '.' | '^' | '$')
}

/// Opens a group, after whose opening the cursor stands, unless too many are open.
fn enter(cursor: &Cursor<'_>, depth: u32, limit: u32, group: OpenGroup) -> Result<Step, Refusal>
    ensures enters { MatchResult result
        (λ step. (step ≡ Step.Group group) × (depth < limit))
        (λ e. (e ≡ fault_at Error.TooMuchNesting cursor.now) × (limit ≤ depth)) }
    ensures room { HasDepth limit depth result }
{
    if depth < limit {
        Ok(Step::Group(group))
    } else {
        Err(cursor.fault(Error::TooMuchNesting))
    }
}

impl Parser<'_> {
    /// Reads the lazy mark after `?`, `*` or `+`, if there is one, and repeats the last node with
    /// these bounds. The operator stands at `start`.
    fn repeat(
        &mut self,
        branches: &mut Branches,
        start: &Cursor<'_>,
        min: u32,
        max: Option<u32>,
    ) -> Result<(), Refusal>
        ensures { ReadsOn self.old.cursor self.new.cursor ((g : pattern.Front) → (bs ts : List spec.Tree) →
            IsAt self.old.limit self.old branches.old g bs ts →
            (depth n : ℕ) →
            ReadsItem self.old.limit depth n result self.new branches.new
            (at_operator ranges_of self.old.limit (inner ranges_of self.old.limit n) depth g bs ts
            message.nothing_to_repeat start.now
            (plain_operator g.flags min max (lazy self.old.cursor)))) }
    {
        if branches.nodes.is_empty() {
            return Err(start.fault(Error::NothingToRepeat));
        }
        let bounds = plain_operator(&mut self.cursor, self.state.flags, min, max);
        branches.repeat(self.alloc, self.limit, bounds)?;
        Ok(())
    }

    /// Reads the rest of an operator in braces after its brace, and repeats the last node. The brace stands at `start`.
    fn repeat_counted(&mut self, branches: &mut Branches, start: &Cursor<'_>) -> Result<(), Refusal>
        ensures { ReadsOn self.old.cursor self.new.cursor ((g : pattern.Front) → (bs ts : List spec.Tree) →
            IsAt self.old.limit self.old branches.old g bs ts →
            (depth : ℕ) →
            ForEnoughSteps self.old.cursor
            (λ n.
            ReadsItem self.old.limit depth n result self.new branches.new
            (at_operator ranges_of self.old.limit (inner ranges_of self.old.limit n) depth g bs ts
            message.nothing_to_count start.now
            (counted n g.flags (skip g.flags self.old.cursor))))) }
    {
        if branches.nodes.is_empty() {
            return Err(start.fault(Error::NothingToCount));
        }
        self.cursor.skip(self.state.flags);
        let bounds = counted(&mut self.cursor, self.state.flags)?;
        branches.repeat(self.alloc, self.limit, bounds)?;
        Ok(())
    }

    /// Reads what opens a group or is a directive, after its parenthesis.
    fn open(&mut self, depth: u32) -> Result<Step, Refusal>
        ensures steps { ReadsOn self.old.cursor self.new.cursor
            ((parsed : Branches) → (g : pattern.Front) → (bs ts : List spec.Tree) →
            IsAt self.old.limit self.old parsed g bs ts → (n : ℕ) →
            Steps self.old.limit depth n g bs ts result self.new parsed
            (and_then (opened g (skip g.flags self.old.cursor))
            (at_opened ranges_of self.old.limit (inner ranges_of self.old.limit n) depth g bs ts))) }
        ensures room { HasDepth self.old.limit depth result }
    {
        let flags = self.state.flags;
        self.cursor.skip(flags);
        match open_group(self.alloc, &mut self.cursor, &mut self.state)? {
            Opened::Directive => Ok(Step::Item),
            Opened::Unnumbered => enter(
                &self.cursor,
                depth,
                self.limit,
                OpenGroup {
                    flags,
                    numbered: None,
                },
            ),
            Opened::Numbered(name) => {
                let numbered = Numbered {
                    index: self.state.groups,
                    name,
                };
                enter(
                    &self.cursor,
                    depth,
                    self.limit,
                    OpenGroup {
                        flags,
                        numbered: Some(numbered),
                    },
                )
            }
        }
    }

    /// Reads the rest of an item or a bar after its first character, which is not a parenthesis and stands at `start`.
    fn item(&mut self, branches: &mut Branches, start: &Cursor<'_>, c: char) -> Result<(), Refusal>
        requires start { start.now ≡ c ∷ self.old.cursor }
        requires closing { c ≢ right_parenthesis }
        requires opening { c ≢ left_parenthesis }
        ensures { ReadsOn self.old.cursor self.new.cursor ((g : pattern.Front) → (bs ts : List spec.Tree) →
            IsAt self.old.limit self.old branches.old g bs ts → (depth : ℕ) →
            ForEnoughSteps self.old.cursor
            (λ n.
            ReadsItem self.old.limit depth n result self.new branches.new
            (at_item ranges_of self.old.limit (inner ranges_of self.old.limit n) n depth g bs ts
            (c ∷ self.old.cursor)))) }
    {
        match c {
            '|' => {
                branches.end_branch(self.alloc, self.limit)?;
                Ok(())
            }
            '?' => self.repeat(branches, start, 0, Some(1)),
            '*' => self.repeat(branches, start, 0, None),
            '+' => self.repeat(branches, start, 1, None),
            '{' => self.repeat_counted(branches, start),
            _ => {
                if begins_atom(c) {
                    return self.push_atom(branches, c);
                }
                branches.push_literal(self.state.flags, c)?;
                Ok(())
            }
        }
    }

    /// Reads the rest of an item that is a node after its first character.
    fn push_atom(&mut self, branches: &mut Branches, c: char) -> Result<(), Refusal>
        ensures { ReadsOn self.old.cursor self.new.cursor
            ((limit : ℕ) → (g : pattern.Front) → (bs ts : List spec.Tree) →
            IsAt limit self.old branches.old g bs ts → (depth : ℕ) →
            ForEnoughSteps self.old.cursor
            (λ n. ReadsItem limit depth n result self.new branches.new
            (and_then (atom n g.flags c self.old.cursor)
            (λ node rest. inner ranges_of limit n depth g bs (ts ++ node ∷ []) rest)))) }
    {
        let tree = atom(self.alloc, &mut self.cursor, self.state.flags, c)?;
        branches.nodes.push(Node::leaf(tree))?;
        Ok(())
    }
}

impl Parser<'_> {
    /// Reads the items and bars that stand here, with the gaps between them, up to a parenthesis or to the end of the
    /// pattern.
    fn items(&mut self, branches: &mut Branches) -> Result<(), Refusal>
        ensures items { ReadsOn self.old.cursor self.new.cursor
            ((limit : ℕ) → (g : pattern.Front) → (bs ts : List spec.Tree) →
            IsAt limit self.old branches.old g bs ts → (depth : ℕ) →
            ForEnoughSteps self.old.cursor
            (λ n.
            ReadsItems limit depth result self.new branches.new
            (inner ranges_of limit (suc n) depth g bs ts self.old.cursor))) }
        ensures ends { OnOk result (ends_items self.new.cursor ≡ true) }
    {
        self.cursor.skip(self.state.flags);
        while let Some(c) = self.cursor.peek() {
            if c == '(' || c == ')' {
                break;
            }
            let start = self.cursor.ahead();
            self.cursor.bump();
            self.item(branches, &start, c)?;
            self.cursor.skip(self.state.flags);
        }
        Ok(())
    }

    /// Reads what stands after the items: what opens a group or is a directive, or nothing where the choice ends.
    fn step(&mut self, depth: u32) -> Result<Step, Refusal>
        requires { ends_items self.old.cursor ≡ true }
        ensures steps { (limit : ℕ) → (parsed : Branches) → (g : pattern.Front) → (bs ts : List spec.Tree) →
            IsAt limit self.old parsed g bs ts → (n : ℕ) →
            Steps limit depth n g bs ts result self.new parsed
            (at_item ranges_of limit (inner ranges_of limit n) n depth g bs ts self.old.cursor) }
        ensures forward { IsForward self.old.limit depth result self.old.cursor self.new.cursor }
    {
        let Some(c) = self.cursor.peek() else {
            if depth > 0 {
                return Err(self.cursor.fault(Error::UnclosedGroup));
            }
            return Ok(Step::End);
        };
        if c == '(' {
            self.cursor.bump();
            return self.open(depth);
        }
        if depth == 0 {
            return Err(self.cursor.fault(Error::UnopenedGroup));
        }
        Ok(Step::End)
    }
}

impl Parser<'_> {
    /// Reads a choice, up to what closes its group or to the end of the pattern. It calls itself once for each group,
    /// at most `self.limit` deep.
    fn choice(&mut self, depth: u32) -> Result<Node, Refusal>
        ensures { ReadsOn self.old.cursor self.new.cursor ((limit : ℕ) → self.old.limit ≡ limit → (g : pattern.Front) →
            IsStateOf self.old.state g →
            ForEnoughSteps self.old.cursor
            (λ n.
            IsChoice limit result self.new
            (inner ranges_of limit (suc n) depth g [] [] self.old.cursor))) }
    {
        let mut branches = Branches::new(self.alloc);
        loop {
            self.items(&mut branches)?;
            match self.step(depth)? {
                Step::Item => {}
                Step::Group(group) => {
                    let choice = self.choice(depth + 1)?;
                    self.state.flags = close_group(
                        self.alloc,
                        &mut branches,
                        group,
                        choice,
                        self.limit,
                    )?;
                    self.cursor.bump();
                }
                Step::End => return Ok(branches.into_alternation(self.alloc, self.limit)?),
            }
        }
    }
}

/// Returns the tree that the grammar gives a pattern under the flags.
///
/// There is a tree exactly if the grammar reads the pattern within the limits: at most `nest_limit` groups open at
/// once, a tree no taller than `nest_limit` and of a height below 4294967295, and counts and group numbers of at most
/// 4294967295. Otherwise the error is the message of the pattern's first fault. Any call may fail with out of memory
/// instead.
///
/// The time is linear in the pattern, except for the sorting of classes and of group names. The recursion goes only
/// into groups, so it is at most `nest_limit` deep. No taller tree is kept meanwhile.
pub fn parse(alloc: Global, pattern: &str, flags: Flags, nest_limit: u32) -> Result<Tree, Error>
    ensures read { IfOk result (λ t. Limits (chars pattern.now) (flags_of flags) nest_limit t) }
    ensures compilable { IfOk result (λ t. IsCompilable t) }
    ensures refused { IfErr result (λ e. e ≢ Error.Memory → (t : spec.Tree) →
        Limits (chars pattern.now) (flags_of flags) nest_limit t → ⊥) }
    ensures message { IfErr result (λ e. e ≢ Error.Memory →
        (m : Message) × (e ≡ error_of m)
        × Fault (chars pattern.now) (flags_of flags) nest_limit m) }
{
    Ok(parse_with_groups(alloc, pattern, flags, nest_limit)?.0)
}

/// Like [`parse`], but also returns all groups that the pattern opens, even those that the tree drops.
pub fn parse_with_groups(
    alloc: Global,
    pattern: &str,
    flags: Flags,
    nest_limit: u32,
) -> Result<(Tree, Groups), Error>
    ensures read { IfOk result
        (λ r. Limits (chars pattern.now) (flags_of flags) nest_limit r.0) }
    ensures groups { IfOk result
        (λ r. (reading : Reading (chars pattern.now) (flags_of flags) r.0) →
        r.1 ≡ groups_opened reading) }
    ensures compilable { IfOk result (λ r. IsCompilable r.0) }
    ensures refused { IfErr result (λ e. e ≢ Error.Memory → (t : spec.Tree) →
        Limits (chars pattern.now) (flags_of flags) nest_limit t → ⊥) }
    ensures message { IfErr result (λ e. e ≢ Error.Memory →
        (m : Message) × (e ≡ error_of m)
        × Fault (chars pattern.now) (flags_of flags) nest_limit m) }
{
    match read_pattern(alloc, pattern, flags, nest_limit) {
        Ok(read) => Ok(read),
        Err(refusal) => Err(refusal.error()),
    }
}

// Returns the tree that the grammar's function on lists returns, with the groups that were opened. The refusal is the
// fault of its stop, or that the tree is too tall.
pub(crate) fn read_pattern(
    alloc: Global,
    pattern: &str,
    flags: Flags,
    nest_limit: u32,
) -> Result<(Tree, Groups), Refusal>
    ensures reads { IfOk result (λ r. (read ranges_of nest_limit (chars pattern.now)
        (flags_of flags) ≡ Ok r.0)
        × (height r.0 ≤ nest_limit) × (height r.0 < 4294967295)) }
    ensures groups { IfOk result
        (λ r. (t : spec.Tree) → (reading : Reading (chars pattern.now) (flags_of flags) t) →
        r.1 ≡ groups_opened reading) }
    ensures refuses { IfErr result
        (λ e. IsFaultOf e (read ranges_of nest_limit (chars pattern.now) (flags_of flags))
        ⊎ ((e ≡ Refusal.TooTall)
        × ((t : spec.Tree)
        × (read ranges_of nest_limit (chars pattern.now) (flags_of flags) ≡ Ok t)
        × IsTooTall nest_limit t))) }
{
    let state = ParserState {
        flags,
        groups: 0,
        names: Names::new(alloc),
        opened: Groups::new(alloc),
    };
    let cursor = Cursor::new(pattern);
    let mut parser = Parser {
        alloc,
        limit: nest_limit,
        cursor,
        state,
    };
    match parser.choice(0)? {
        Node::Kept { tree, .. } => Ok((tree, parser.state.opened)),
        Node::TooTall => Err(Refusal::TooTall),
    }
}
