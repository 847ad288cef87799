// Resolves names: the Rust's `parse_inner`, step 2, with an explicit stack in the lent work table. Each function takes any words.
#![tactic(auto)]

ghost use Rattle.std.specs.Prelude.{◌≡◌, true, List, ◌*◌, ◌-◌, ◌≤◌, length};
ghost use Rattle.std.proofs.Common.{rules};
ghost use Rattle.records.specs.Limits.{record_limit, name_width, node_width, work_width, expr_width};
ghost use Rattle.records.specs.NodeKind as node;
ghost use Rattle.tables.specs.Tables.{word_at, written, span_at};
ghost use Rattle.grammar.specs.Tree.{Line};
ghost use Rattle.resolve.specs.Words.{waits_word, waits_of, item_words, item_at, left_item, down_walker, up_walker, left_walker, done_walker, last_node, used_in, kind_in, span_in, place_in, nodes_with, node_word, status_of, status_at, finished_node, reference_kind, fresh_name, names_with, begun_word, node_at, with_parent, bumped, Counts};
ghost use Rattle.resolve.specs.Turns.{Turns, Runs, Visits, VisitsTo, is_running};
ghost use Rattle.resolve.specs.Resolved.{HeldNames, Resolved};

use records::kinds::NodeKind;
use records::numbers::{ByteOffset, ExprNo, NameNo, NodeNo, WorkNo};
use records::{ExprRecord, NameRecord, NodeRecord, Record, Span, WorkRecord};

// What an item waits for: its right child's node, its left child's node, the node of the name that it uses.
#[derive(Clone, Copy)]
pub enum Waits {
    ForRight,
    ForLeft,
    ForName,
}

impl Waits {
    // The words that say it in the work table.
    pub const RIGHT: u32 = 1;

    pub const LEFT: u32 = 2;

    pub const NAME: u32 = 3;

    // The word that says it.
    fn word(self) -> u32
        ensures { result ≡ waits_word self }
    {
        match self {
            Waits::ForRight => Waits::RIGHT,
            Waits::ForLeft => Waits::LEFT,
            Waits::ForName => Waits::NAME,
        }
    }

    // What a word says; a lent table may have any words.
    fn of(word: u32) -> Waits
        ensures { result ≡ waits_of word }
    {
        match word {
            Waits::RIGHT => Waits::ForRight,
            Waits::LEFT => Waits::ForLeft,
            _ => Waits::ForName,
        }
    }
}

// The Rust's `StackItem`: an expression whose node is still to be made, the name whose outermost expression it is or 0, what it
// waits for, and the node of its right child once that is made. Its words are a work record.
#[derive(Clone, Copy)]
pub struct StackItem {
    pub expr: ExprNo,
    pub name: NameNo,
    pub waits: Waits,
    pub right: NodeNo,
}

impl StackItem {
    pub const EXPR: u32 = 0;

    pub const NAME: u32 = 1;

    pub const WAITS: u32 = 2;

    pub const RIGHT: u32 = 3;
}

impl Record<4> for StackItem {
    ghost words_of = { item_words };

    ghost narrow = { Prim.search rules };

    fn words(self) -> [u32; 4] {
        [self.expr.0, self.name.0, self.waits.word(), self.right.0]
    }
}

// How far a name has come, as its word `node` says it.
#[derive(Clone, Copy)]
pub enum Status {
    Fresh,
    Begun,
    Finished(NodeNo),
}

impl Status {
    // The words of what has no node yet.
    pub const FRESH: u32 = 0;

    pub const BEGUN: u32 = u32::MAX;

    // The word that says it.
    fn word(self) -> u32
        ensures { result ≡ node_word self }
    {
        match self {
            Status::Fresh => Status::FRESH,
            Status::Begun => Status::BEGUN,
            Status::Finished(node) => node.0,
        }
    }

    // What a word says; no node has the number of one of the first two.
    fn of(word: u32) -> Status
        ensures { result ≡ status_of word }
    {
        match word {
            Status::FRESH => Status::Fresh,
            Status::BEGUN => Status::Begun,
            _ => Status::Finished(NodeNo(word)),
        }
    }
}

// What is walked and not changed: the expressions of a source, and how many names there are.
#[derive(Clone, Copy)]
struct Program<'a> {
    source: &'a [u8],
    exprs: &'a [u32],
    count: u32,
}

// The next step of a walk: down into an expression, which is the outermost one of the name if that is not 0, or up with the node
// that was made last.
#[derive(Clone, Copy)]
pub enum Step {
    Down(ExprNo, NameNo),
    Up(NodeNo),
}

// Where the walk stands: its next step, how many items wait, and how many nodes are made.
#[derive(Clone, Copy)]
pub struct Walker {
    pub step: Step,
    pub waiting: u32,
    pub made: u32,
}

// The turns that a walk has at most: a node takes less than five.
pub const TURNS: u32 = 8192;

// The item of a number, from the stack.
fn item_at(work: &[u32], number: WorkNo) -> StackItem
    ensures { result ≡ item_at work.now number.0 }
{
    let i = number.0;
    StackItem {
        expr: ExprNo(tables::word(work, WorkRecord::WORDS, i, StackItem::EXPR)),
        name: NameNo(tables::word(work, WorkRecord::WORDS, i, StackItem::NAME)),
        waits: Waits::of(tables::word(work, WorkRecord::WORDS, i, StackItem::WAITS)),
        right: NodeNo(tables::word(work, WorkRecord::WORDS, i, StackItem::RIGHT)),
    }
}

// The span of an expression.
fn expr_span(exprs: &[u32], expr: ExprNo) -> Span
    ensures { result ≡ span_at expr_width exprs.now expr.0 4 }
{
    tables::span(exprs, ExprRecord::WORDS, expr.0, ExprRecord::SPAN_START)
}

// The name that a reference uses; 0 if that has no legal line.
#[tactic(auto, unfolding(crate::specs::Words::used_in))]
fn used_name(program: Program, names: &[u32], expr: ExprNo) -> NameNo
    ensures { result.0 ≡ used_in program.entry.source.now program.entry.exprs.now names.now program.entry.count expr.0 }
{
    let text = cursor::span_text(program.source, expr_span(program.exprs, expr));
    symbols::find_name(program.source, names, program.count, text)
}

// The kind of an expression's node; a name that has no expression has an incomplete node.
#[tactic(auto, unfolding(crate::specs::Words::kind_in))]
fn node_kind(exprs: &[u32], expr: ExprNo) -> NodeKind
    ensures { result.0 ≡ kind_in exprs.now expr.0 }
{
    if expr.0 == 0 {
        return NodeKind::NO_EXPR;
    }
    NodeKind(tables::word(exprs, ExprRecord::WORDS, expr.0, ExprRecord::KIND))
}

// The span of an expression's node: the expression's, or the name's if that has none.
#[tactic(auto, unfolding(crate::specs::Words::span_in))]
fn node_span(exprs: &[u32], names: &[u32], expr: ExprNo, name: NameNo) -> Span
    ensures { result ≡ span_in exprs.now names.now expr.0 name.0 }
{
    if expr.0 == 0 {
        return symbols::name_span(names, name);
    }
    expr_span(exprs, expr)
}

// The place of an expression's node: the outermost node of a name has the name's place.
#[tactic(auto, unfolding(crate::specs::Words::place_in))]
fn node_place(exprs: &[u32], names: &[u32], expr: ExprNo, name: NameNo) -> ByteOffset
    ensures { result.0 ≡ place_in exprs.now names.now expr.0 name.0 }
{
    if name.0 == 0 {
        return ByteOffset(tables::word(exprs, ExprRecord::WORDS, expr.0, ExprRecord::START));
    }
    ByteOffset(tables::word(names, NameRecord::WORDS, name.0, NameRecord::START))
}

// Makes the node of an item, whose right child is made, behind the nodes that are made.
fn make_node(
    exprs: &[u32],
    names: &[u32],
    nodes: &mut [u32],
    made: u32,
    kind: NodeKind,
    item: StackItem,
    left: NodeNo,
)
    ensures { nodes.new ≡ nodes_with exprs.now names.now nodes.old made kind.0 item.expr.0 item.name.0 left.0 item.right.0 }
{
    let node = NodeRecord {
        kind,
        start: node_place(exprs, names, item.expr, item.name),
        name: item.name,
        left,
        right: item.right,
        span: node_span(exprs, names, item.expr, item.name),
        in_degree: 0,
    };
    tables::write_record(nodes, cursor::next_number(made), node);
}

// How far a name has come.
fn status_at(names: &[u32], name: NameNo) -> Status
    ensures { result ≡ status_at names.now name.0 }
{
    Status::of(tables::word(names, NameRecord::WORDS, name.0, NameRecord::NODE))
}

// Sets how far a name has come.
fn set_status(names: &mut [u32], name: NameNo, status: Status)
    ensures { names.new ≡ names_with names.old name.0 (node_word status) }
{
    let marked = NameRecord {
        span: symbols::name_span(names, name),
        expr: ExprNo(tables::word(names, NameRecord::WORDS, name.0, NameRecord::EXPR)),
        node: NodeNo(status.word()),
    };
    tables::write_record(names, name.0, marked);
}

// The node that a reference gets as its child, by its name's status; 0 if the name is not finished.
fn finished_node(status: Status) -> NodeNo
    ensures { result.0 ≡ finished_node status }
{
    match status {
        Status::Finished(node) => node,
        _ => NodeNo(0),
    }
}

// The kind of a reference's node, by its name's status: it is missing if the name is not finished.
fn reference_kind(status: Status) -> NodeKind
    ensures { result.0 ≡ reference_kind status }
{
    match status {
        Status::Finished(_) => NodeKind::REFERENCE,
        _ => NodeKind::MISSING,
    }
}

// Whether a name has a legal line and is not yet begun.
fn is_fresh(name: NameNo, status: Status) -> bool
    ensures { result ≡ fresh_name name.0 status }
{
    match status {
        Status::Fresh => name.0 != 0,
        _ => false,
    }
}

// Begins a name, and gives its first expression.
fn begin_name(names: &mut [u32], name: NameNo) -> ExprNo
    ensures first { result.0 ≡ word_at name_width (names_with names.old name.0 begun_word) name.0 2 }
    ensures table { names.new ≡ names_with names.old name.0 begun_word }
{
    set_status(names, name, Status::Begun);
    ExprNo(tables::word(names, NameRecord::WORDS, name.0, NameRecord::EXPR))
}

// A walk that goes down.
fn going_down(expr: ExprNo, name: NameNo, waiting: u32, made: u32) -> Walker
    ensures { result ≡ down_walker expr.0 name.0 waiting made }
{
    Walker {
        step: Step::Down(expr, name),
        waiting,
        made,
    }
}

// A walk that comes up.
fn coming_up(node: NodeNo, waiting: u32, made: u32) -> Walker
    ensures { result ≡ up_walker node.0 waiting made }
{
    Walker {
        step: Step::Up(node),
        waiting,
        made,
    }
}

// A turn at a reference: begins its name if that is fresh, else makes the reference's node.
#[tactic(auto, using(crate::proofs::Turning::refer_begin, crate::proofs::Turning::refer_node))]
fn refer(
    program: Program,
    names: &mut [u32],
    nodes: &mut [u32],
    work: &mut [u32],
    expr: ExprNo,
    name: NameNo,
    g: Walker,
) -> Walker
    ensures { g.step ≡ Step.Down expr name → word_at expr_width program.entry.exprs.now expr.0 0 ≡ node.number node.ref
        → Turns program.entry.source.now program.entry.exprs.now program.entry.count g names.old nodes.old work.old result names.new nodes.new work.new }
{
    let item = StackItem {
        expr,
        name,
        waits: Waits::ForName,
        right: NodeNo(0),
    };
    let used = used_name(program, names, expr);
    let status = status_at(names, used);
    if is_fresh(used, status) {
        let number = cursor::next_number(g.waiting);
        tables::write_record(work, number, item);
        let first = begin_name(names, used);
        return going_down(first, used, number, g.made);
    }
    let left = finished_node(status);
    let kind = reference_kind(status);
    make_node(program.exprs, names, nodes, g.made, kind, item, left);
    let number = cursor::next_number(g.made);
    coming_up(NodeNo(number), g.waiting, number)
}

// A part whose right child is made waits for its left child.
fn turn_left(exprs: &[u32], work: &mut [u32], item: StackItem, right: NodeNo, g: Walker) -> Walker
    ensures walk { result ≡ left_walker exprs.now item g }
    ensures stack { work.new ≡ written work_width work.old g.waiting (item_words (left_item item right)) }
{
    let next = StackItem {
        waits: Waits::ForLeft,
        right,
        ..item
    };
    tables::write_record(work, g.waiting, next);
    let left = tables::word(exprs, ExprRecord::WORDS, item.expr.0, ExprRecord::LEFT);
    going_down(ExprNo(left), NameNo(0), g.waiting, g.made)
}

// The walk with one item less that waits, and one node more.
fn one_done(g: Walker) -> Walker
    ensures { result ≡ done_walker g }
{
    let number = cursor::next_number(g.made);
    coming_up(NodeNo(number), g.waiting.saturating_sub(1), number)
}

// A turn that comes up to an item: the left child is next, or the item's node is made, once its name is finished if it uses one.
#[tactic(auto, using(crate::proofs::Turning::up_left, crate::proofs::Turning::up_node, crate::proofs::Turning::up_name))]
fn come_up(
    program: Program,
    names: &mut [u32],
    nodes: &mut [u32],
    work: &mut [u32],
    node: NodeNo,
    g: Walker,
) -> Walker
    ensures { g.step ≡ Step.Up node → 1 ≤ g.waiting
        → Turns program.entry.source.now program.entry.exprs.now program.entry.count g names.old nodes.old work.old result names.new nodes.new work.new }
{
    let item = item_at(work, WorkNo(g.waiting));
    match item.waits {
        Waits::ForRight => turn_left(program.exprs, work, item, node, g),
        Waits::ForLeft => {
            let kind = node_kind(program.exprs, item.expr);
            make_node(program.exprs, names, nodes, g.made, kind, item, node);
            one_done(g)
        }
        Waits::ForName => {
            let used = used_name(program, names, item.expr);
            set_status(names, used, Status::Finished(node));
            let kind = NodeKind::REFERENCE;
            make_node(program.exprs, names, nodes, g.made, kind, item, node);
            one_done(g)
        }
    }
}

// A turn that goes down: passes an absent child, turns to a reference, or lets a part wait for its right child.
fn go_down(
    program: Program,
    names: &mut [u32],
    nodes: &mut [u32],
    work: &mut [u32],
    expr: ExprNo,
    name: NameNo,
    g: Walker,
) -> Walker
    ensures { g.step ≡ Step.Down expr name
        → Turns program.entry.source.now program.entry.exprs.now program.entry.count g names.old nodes.old work.old result names.new nodes.new work.new }
{
    if (expr.0 == 0) & (name.0 == 0) {
        return coming_up(NodeNo(0), g.waiting, g.made);
    }
    let kind = tables::word(program.exprs, ExprRecord::WORDS, expr.0, ExprRecord::KIND);
    if NodeKind(kind) == NodeKind::REFERENCE {
        return refer(program, names, nodes, work, expr, name, g);
    }
    let number = cursor::next_number(g.waiting);
    let item = StackItem {
        expr,
        name,
        waits: Waits::ForRight,
        right: NodeNo(0),
    };
    tables::write_record(work, number, item);
    let right = tables::word(program.exprs, ExprRecord::WORDS, expr.0, ExprRecord::RIGHT);
    going_down(ExprNo(right), NameNo(0), number, g.made)
}

// Whether there is a turn left.
fn is_running(g: Walker) -> bool
    ensures { result ≡ is_running g }
{
    match g.step {
        Step::Down(..) => true,
        Step::Up(_) => g.waiting != 0,
    }
}

// One turn.
fn turn(
    program: Program,
    names: &mut [u32],
    nodes: &mut [u32],
    work: &mut [u32],
    g: Walker,
) -> Walker
    ensures { is_running g ≡ true
        → Turns program.entry.source.now program.entry.exprs.now program.entry.count g names.old nodes.old work.old result names.new nodes.new work.new }
{
    match g.step {
        Step::Down(expr, name) => go_down(program, names, nodes, work, expr, name, g),
        Step::Up(node) => come_up(program, names, nodes, work, node, g),
    }
}

// All the turns.
fn run(
    program: Program,
    names: &mut [u32],
    nodes: &mut [u32],
    work: &mut [u32],
    g: Walker,
) -> Walker
    ensures { Runs program.entry.source.now program.entry.exprs.now program.entry.count g names.old nodes.old work.old result names.new nodes.new work.new }
{
    let mut h = g;
    for _ in 0..TURNS {
        if !is_running(h) {
            break;
        }
        h = turn(program, names, nodes, work, h);
    }
    h
}

// The node that a walk comes up with; 0 if it goes down.
fn last_node(g: Walker) -> NodeNo
    ensures { result.0 ≡ last_node g }
{
    match g.step {
        Step::Down(..) => NodeNo(0),
        Step::Up(node) => node,
    }
}

// Finishes a name if it is fresh. Returns how many nodes are made then.
#[tactic(auto, using(crate::proofs::Running::visit_no, crate::proofs::Running::visit_yes))]
fn visit(
    program: Program,
    names: &mut [u32],
    nodes: &mut [u32],
    work: &mut [u32],
    n: u32,
    made: u32,
) -> u32
    ensures { Visits program.entry.source.now program.entry.exprs.now program.entry.count n made names.old nodes.old work.old result names.new nodes.new work.new }
{
    let name = NameNo(n);
    let status = status_at(names, name);
    if is_fresh(name, status) {
        let first = begin_name(names, name);
        let g = going_down(first, name, 0, made);
        let h = run(program, names, nodes, work, g);
        set_status(names, name, Status::Finished(last_node(h)));
        return h.made;
    }
    made
}

// Walks the names in order, each that is not yet begun. Returns how many nodes are made.
fn walk_names(program: Program, names: &mut [u32], nodes: &mut [u32], work: &mut [u32]) -> u32
    ensures { VisitsTo program.entry.source.now program.entry.exprs.now program.entry.count program.entry.count names.old nodes.old work.old result names.new nodes.new work.new }
{
    let mut made = 0;
    for number in 1..=program.count {
        made = visit(program, names, nodes, work, number, made);
    }
    made
}

// The record of a node.
fn node_at(nodes: &[u32], n: u32) -> NodeRecord
    ensures { result ≡ node_at nodes.now n }
{
    NodeRecord {
        kind: NodeKind(tables::word(nodes, NodeRecord::WORDS, n, NodeRecord::KIND)),
        start: ByteOffset(tables::word(nodes, NodeRecord::WORDS, n, NodeRecord::START)),
        name: NameNo(tables::word(nodes, NodeRecord::WORDS, n, NodeRecord::NAME)),
        left: NodeNo(tables::word(nodes, NodeRecord::WORDS, n, NodeRecord::LEFT)),
        right: NodeNo(tables::word(nodes, NodeRecord::WORDS, n, NodeRecord::RIGHT)),
        span: tables::span(nodes, NodeRecord::WORDS, n, NodeRecord::SPAN_START),
        in_degree: tables::word(nodes, NodeRecord::WORDS, n, NodeRecord::IN_DEGREE),
    }
}

// The record with one parent more, as far as a word goes.
#[tactic(auto, using(crate::proofs::Parents::more_word))]
fn with_parent(node: NodeRecord) -> NodeRecord
    ensures { result ≡ with_parent node }
{
    NodeRecord {
        in_degree: node.in_degree.saturating_add(1),
        ..node
    }
}

// One parent more for the node i, if that is one of `count`.
#[tactic(auto, unfolding(crate::specs::Words::bumped))]
fn add_parent(nodes: &mut [u32], count: u32, i: u32)
    ensures { nodes.new ≡ bumped nodes.old count i }
{
    if (1 <= i) & (i <= count) {
        tables::write_record(nodes, i, with_parent(node_at(nodes, i)));
    }
}

// Counts for each node how often it stands as a child.
fn count_parents(nodes: &mut [u32], count: u32)
    ensures { Counts nodes.old count nodes.new }
{
    for number in 1..=count {
        let left = tables::word(nodes, NodeRecord::WORDS, number, NodeRecord::LEFT);
        add_parent(nodes, count, left);
        let right = tables::word(nodes, NodeRecord::WORDS, number, NodeRecord::RIGHT);
        add_parent(nodes, count, right);
    }
}

// Resolves every name: the nodes of the names in order, each name's node, and how often each node stands as a child. Returns how
// many nodes there are. The work table is zero afterwards.
pub fn resolve_names(
    source: &[u8],
    exprs: &[u32],
    names: &mut [u32],
    count: u32,
    nodes: &mut [u32],
    work: &mut [u32],
) -> u32
    requires { (record_limit * name_width ≤ length names.old) × (record_limit * node_width ≤ length nodes.old) × (record_limit * work_width ≤ length work.old) }
    ensures { (ls : List Line) → HeldNames source.now exprs.now names.old count ls → Resolved ls result names.old names.new nodes.old nodes.new work.old work.new }
{
    tables::clear(nodes, NodeRecord::WORDS);
    let program = Program {
        source,
        exprs,
        count,
    };
    let made = walk_names(program, names, nodes, work);
    count_parents(nodes, made);
    tables::clear(work, WorkRecord::WORDS);
    made
}
