#![tactic(auto)]
// The variables that stand free in a part, as bits of a u32.
ghost use Rattle.std.specs.Prelude.{◌≡◌, ◌≤◌, ◌<◌};
ghost use Rattle.pcrl.specs.Parts.{count as count_of};
ghost use Rattle.nodes.specs.Layout.{cell_limit};
ghost use Rattle.nodes.specs.Scoped.{max_scope};
ghost use Rattle.marking.specs.Marks.{bits, HighBits, Notes, MarksData, Marked};

// A node noted, if it is a variable below n.
fn note(m: u32, tag: usize, number: usize, n: usize) -> u32
    requires { n ≤ max_scope }
    ensures notes { Notes m tag number n result }
    ensures high_bits { HighBits n m result }
{
    if tag != nodes::VARIABLE {
        return m;
    }
    if number >= n {
        return m;
    }
    nodes::with_bit(m, number)
}

// The set m, and the variables below n that stand in `count` data terms.
fn data_marks(cells: &[u16], at: usize, count: usize, n: usize, m: u32) -> u32
    requires { (count < cell_limit) × (n ≤ max_scope) }
    ensures marks_data { MarksData cells.now at count n m result }
    ensures high_bits { HighBits n m result }
{
    let mut p = at;
    let mut need = count;
    let mut x = m;
    while need > 0 {
        if p >= cells.len() {
            return x;
        }
        // more terms than cells: no data
        if need > cells.len() {
            return x;
        }
        let d = nodes::data_at(cells, p);
        x = note(x, d.tag, d.number, n);
        need = need - 1 + d.kids;
        p = d.next;
    }
    x
}

// The variables below n that stand free in a term.
pub fn marks(cells: &[u16], at: usize, n: usize) -> u32
    requires { n ≤ max_scope }
    ensures marked { Marked cells.now at n result }
    ensures high_bits { HighBits n 0 result }
{
    if n == 0 {
        return 0;
    }
    let mut p = at;
    let mut need: usize = 1;
    let mut x: u32 = 0;
    while need > 0 {
        if p >= cells.len() {
            return x;
        }
        let d = nodes::node_at(cells, p);
        x = data_marks(cells, d.terms, d.datas, n, x);
        need = need - 1 + d.kids;
        p = d.next;
    }
    x
}

// How many there are.
pub fn many(m: u32) -> usize
    ensures { result ≡ count_of (bits max_scope m) }
{
    u32::count_ones(m) as usize
}
