// Refusals 1 to 12 of document 01, in its order.
#![tactic(auto)]

ghost use Rattle.std.specs.Prelude.{◌≡◌, ◌==◌, ℕ, Result, Err, Some, [], ◌∷◌, ◌<◌, ◌≤◌, IfOk, length, get_or};
ghost use Rattle.std.specs.List.{list_all};
ghost use Rattle.rules.specs.Kinds.{new_table, new_method, edge_number, new_crew};
ghost use Rattle.rules.specs.Query.{graph_of};
ghost use Rattle.rules.specs.Verdict.{number_of, number_in, verdict_of};
ghost use Rattle.rules.specs.Refusals.{first_bad, first_of, bad_table, bad_method, repeats, bad_edge, bad_turn, all_same, groups, checks_of};
ghost use Rattle.query.specs.Lists.{query_in};
ghost use Rattle.refusals.specs.Checks.{query_groups, table_number, method_number, table_checks, method_checks, graph_checks, crew_checks, TablesGood};

use query::connected::connected;
use query::edges::same_pair;
use query::graph::Graph;
use query::lists::Query;
use rules::refusal::{Reason, Refusal};
use rules::{Crew, Edge, EdgeFault, Method, Table};

// How long the lent columns are: sets, estimates, costs, outers and methods of the memo; workers, driving sets, inner sets and costs of
// the log.
#[derive(Clone, Copy)]
pub struct Lengths {
    pub memo: [usize; 5],
    pub log: [usize; 4],
}

// "Place: the first such record": tests records 0 to `count` - 1 until one is refused.
fn first_bad<F: Fn(usize) -> Result<(), Reason>>(count: usize, test: F) -> Result<(), Refusal>
    requires { (i : ℕ) → i < count → F.pre test i }
    ensures { (numbers : ℕ → ℕ) → ((i : ℕ) (r : Result (Unit {0}) Reason) → i < count → F.post test i r → number_in r ≡ numbers i) → verdict_of result ≡ first_bad numbers 0 count }
{
    for i in 0..count {
        if let Err(reason) = test(i) {
            return Err(reason.at(i as u64));
        }
    }
    Ok(())
}

// Refusal 3 of one table.
// `if let`, here and below, and no `ok_or(..)?`: no plainer where nothing else is asked of the value.
fn check_table(rows: u64, scan: u64) -> Result<(), Reason>
    ensures { number_in result ≡ table_number (new_table rows scan) }
{
    match Table::new(rows, scan) {
        Some(_) => Ok(()),
        None => Err(Reason::TableOver),
    }
}

// Refusal 3 with its place. The lists stay apart here and below: they need only be of one length, and a checked type asks more.
pub fn first_bad_table(rows: &[u64], scans: &[u64]) -> Result<(), Refusal>
    requires { length scans.now ≡ length rows.now }
    ensures { verdict_of result ≡ first_bad (bad_table rows.now scans.now) 0 (length rows.now) }
{
    first_bad(rows.len(), |i| check_table(rows[i], scans[i]))
}

// Refusal 5 of one method.
fn check_method(fixed: u64, outer: u64, inner: u64, res: u64) -> Result<(), Reason>
    ensures { number_in result ≡ method_number (new_method fixed outer inner res) }
{
    match Method::new(fixed, outer, inner, res) {
        Some(_) => Ok(()),
        None => Err(Reason::MethodOver),
    }
}

// Refusal 5 with its place.
pub fn first_bad_method(
    fixed: &[u64],
    outer: &[u64],
    inner: &[u64],
    res: &[u64],
) -> Result<(), Refusal>
    requires { (length outer.now ≡ length fixed.now) × (length inner.now ≡ length fixed.now) × (length res.now ≡ length fixed.now) }
    ensures { verdict_of result ≡ first_bad (bad_method fixed.now outer.now inner.now res.now) 0 (length fixed.now) }
{
    first_bad(
        fixed.len(),
        |i| check_method(fixed[i], outer[i], inner[i], res[i]),
    )
}

// Whether edge `i` joins the two tables of an earlier edge.
pub fn repeats(rows: &[u64], left: &[u64], right: &[u64], divisors: &[u64], i: usize) -> bool
    requires { (length right.now ≡ length left.now) × (i < length left.now) }
    ensures { result ≡ repeats (graph_of rows.now left.now right.now divisors.now) i }
{
    // By index: no type holds the lists to one length, and a chain would zip them.
    for j in 0..i {
        if same_pair(left[j], right[j], left[i], right[i]) {
            return true;
        }
    }
    false
}

// Refusals 6, 7 and 8. Not a From: the two types are those of crate rules, and the edit order_of_edges turns a line of this function.
fn reason_of(fault: EdgeFault) -> Reason
    ensures { number_of result ≡ edge_number (Err fault) }
{
    match fault {
        EdgeFault::Outside => Reason::EdgeOutside,
        EdgeFault::Itself => Reason::EdgeItself,
        EdgeFault::Divisor => Reason::EdgeDivisor,
    }
}

// Refusals 6 to 9 of edge `i`.
pub fn check_edge(
    rows: &[u64],
    left: &[u64],
    right: &[u64],
    divisors: &[u64],
    i: usize,
) -> Result<(), Reason>
    requires { (length right.now ≡ length left.now) × (length divisors.now ≡ length left.now) × (i < length left.now) }
    ensures { number_in result ≡ bad_edge (graph_of rows.now left.now right.now divisors.now) i }
{
    if let Err(fault) = Edge::new(rows.len() as u64, left[i], right[i], divisors[i]) {
        return Err(reason_of(fault));
    }
    if repeats(rows, left, right, divisors, i) {
        return Err(Reason::EdgeRepeated);
    }
    Ok(())
}

// Refusals 6 to 9, edge by edge, with their place.
pub fn first_bad_edge(
    rows: &[u64],
    left: &[u64],
    right: &[u64],
    divisors: &[u64],
) -> Result<(), Refusal>
    requires { (length right.now ≡ length left.now) × (length divisors.now ≡ length left.now) }
    ensures { verdict_of result ≡ first_bad (bad_edge (graph_of rows.now left.now right.now divisors.now)) 0 (length left.now) }
{
    first_bad(left.len(), |i| check_edge(rows, left, right, divisors, i))
}

// Refusal 12 with its place. A loop of its own: the edit place_off is about turns alone.
pub fn first_bad_turn(workers: u64, turns: &[u64]) -> Result<(), Refusal>
    ensures { verdict_of result ≡ first_bad (bad_turn workers turns.now) 0 (length turns.now) }
{
    for (i, turn) in turns.iter().enumerate() {
        if *turn >= workers {
            return Err(Reason::TurnWorker.at(i as u64));
        }
    }
    Ok(())
}

// Whether the lengths are all the same.
fn alike(lengths: &[usize]) -> bool
    requires { 1 ≤ length lengths.now }
    ensures { result ≡ list_all (λ k. k == get_or lengths.now 0 0) lengths.now }
{
    let first = lengths[0];
    lengths.iter().all(|length| *length == first)
}

// Refusal 1, of the nine lists of a query.
fn query_lists_fit(query: &Query) -> bool
    ensures { result ≡ all_same (query_groups (query_in query.now)) }
{
    let tables = [query.rows.len(), query.scans.len()];
    let edges = [query.left.len(), query.right.len(), query.divisors.len()];
    let methods = [
        query.fixed.len(),
        query.per_outer.len(),
        query.per_inner.len(),
        query.per_result.len(),
    ];
    alike(&tables) && alike(&edges) && alike(&methods)
}

// Refusal 1, of the five columns of the memo and the four of the log, by their lengths.
fn lent_columns_fit(lent: &Lengths) -> bool
    ensures { result ≡ all_same (lent.now.memo ∷ lent.now.log ∷ []) }
{
    alike(&lent.memo) && alike(&lent.log)
}

// Refusal 1: lists that hold fields of the same records are as long as each other.
pub fn same_lengths(query: &Query, lent: &Lengths) -> bool
    ensures { result ≡ all_same (groups (query_in query.now) lent.now.memo lent.now.log) }
{
    query_lists_fit(query) && lent_columns_fit(lent)
}

// Refusals 2 and 3.
fn check_tables(query: &Query) -> Result<(), Refusal>
    requires { length query.now.scans.now ≡ length query.now.rows.now }
    ensures { verdict_of result ≡ first_of (table_checks query.now.rows.now query.now.scans.now) }
{
    if !Table::count_fits(query.rows.len() as u64) {
        return Err(Reason::TableCount.at(0));
    }
    first_bad_table(query.rows, query.scans)
}

// Refusals 4 and 5.
fn check_methods(query: &Query) -> Result<(), Refusal>
    requires { (length query.now.per_outer.now ≡ length query.now.fixed.now) × (length query.now.per_inner.now ≡ length query.now.fixed.now) × (length query.now.per_result.now ≡ length query.now.fixed.now) }
    ensures { verdict_of result ≡ first_of (method_checks query.now.fixed.now query.now.per_outer.now query.now.per_inner.now query.now.per_result.now) }
{
    if !Method::count_fits(query.fixed.len() as u64) {
        return Err(Reason::MethodCount.at(0));
    }
    first_bad_method(
        query.fixed,
        query.per_outer,
        query.per_inner,
        query.per_result,
    )
}

// Refusals 6 to 9, edge by edge, and then 10: only a graph whose edges are good is asked whether it is connected.
fn check_graph(query: &Query) -> Result<(), Refusal>
    requires { TablesGood (query_in query.now).graph }
    ensures { verdict_of result ≡ first_of (graph_checks (query_in query.now).graph) }
{
    first_bad_edge(query.rows, query.left, query.right, query.divisors)?;
    // Made where it is known to be good: a function for it would ask for just that.
    let graph = Graph {
        rows: query.rows,
        left: query.left,
        right: query.right,
        divisors: query.divisors,
    };
    let full = (1u64 << query.rows.len()) - 1;
    if !connected(&graph, full) {
        return Err(Reason::Unconnected.at(0));
    }
    Ok(())
}

// Refusals 11 and 12; the crew that the numbers name.
// Crew and turns are no struct, here and in runs: one is a value, the other a lent list.
fn check_crew(workers: u64, scheme: u64, turns: &[u64]) -> Result<Crew, Refusal>
    ensures verdict { verdict_of result ≡ first_of (crew_checks workers scheme turns.now) }
    ensures crew { IfOk result (λ c. new_crew workers scheme ≡ Some c) }
{
    let Some(crew) = Crew::new(workers, scheme) else {
        return Err(Reason::CrewRange.at(0));
    };
    first_bad_turn(workers, turns)?;
    Ok(crew)
}

// Workers and scheme come as numbers from C. Refusals 1 to 12: the first that applies, with its place, or the crew that the numbers name.
pub fn check(
    query: &Query,
    workers: u64,
    scheme: u64,
    turns: &[u64],
    lent: &Lengths,
) -> Result<Crew, Refusal>
    ensures verdict { verdict_of result ≡ first_of (checks_of (query_in query.now) workers scheme turns.now lent.now.memo lent.now.log) }
    ensures crew { IfOk result (λ c. new_crew workers scheme ≡ Some c) }
{
    if !same_lengths(query, lent) {
        return Err(Reason::ListLengths.at(0));
    }
    check_tables(query)?;
    check_methods(query)?;
    check_graph(query)?;
    check_crew(workers, scheme, turns)
}
