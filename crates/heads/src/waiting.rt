// What is walked later: the second sides of choices, each in some cells of a stack.
ghost use Rattle.std.specs.Prelude.{◌≡◌, ◌+◌, ◌*◌, ◌%◌, ◌≤◌, ◌<◌, length};
ghost use Rattle.nodes.specs.Layout.{byte_limit, cell_limit};
ghost use Rattle.heads.specs.Stack.{later_cells, LaterPut, entry};

use contexts::{Side, Spot};
use elements::{CELL_LIMIT, cell};

// The cells of one of them.
pub const LATER: usize = 7;

// The second side of the choice at s, and how many heads it has.
#[derive(Clone, Copy)]
pub struct Later {
    pub s: Spot,
    pub e: Side,
    pub heads: usize,
}

fn narrow(n: usize) -> u16
    ensures { result ≡ n % cell_limit }
{
    (n % CELL_LIMIT) as u16
}

// Small numbers stand together in one cell.
pub fn put_later(later: &mut [u16], q: usize, s: Spot, e: Side, heads: usize)
    requires { (later_cells * q + later_cells ≤ length later.old) × (s.n ≤ 64) × (s.m ≤ 64) × (s.nv ≤ 64) × (s.nc ≤ 64) × (s.nk ≤ 64) × (e.c < byte_limit) }
    ensures { LaterPut later.old q s e heads later.new }
{
    let i = LATER * q;
    later[i] = narrow(s.at);
    later[i + 1] = narrow(s.n * 64 + s.m);
    later[i + 2] = narrow(s.nv * 256 + s.nc * 16 + s.nk);
    later[i + 3] = narrow(s.lc);
    later[i + 4] = narrow(s.top);
    later[i + 5] = narrow(e.at);
    later[i + 6] = narrow(e.c * 256 + heads % 256);
}

pub fn later_at(later: &[u16], q: usize, fuel: usize) -> Later
    requires { later_cells * q + later_cells ≤ length later.now }
    ensures { result ≡ entry later.now q fuel }
{
    let i = LATER * q;
    let at = cell(later, i);
    let x = cell(later, i + 1);
    let y = cell(later, i + 2);
    let lc = cell(later, i + 3);
    let top = cell(later, i + 4);
    let next = cell(later, i + 5);
    let z = cell(later, i + 6);
    let s = Spot {
        at,
        fuel,
        n: x / 64,
        m: x % 64,
        c: z / 256,
        nv: y / 256,
        nc: y / 16 % 16,
        lc,
        nk: y % 16,
        top,
    };
    let e = Side {
        second: true,
        at: next,
        c: z / 256,
    };
    Later {
        s,
        e,
        heads: z % 256,
    }
}
