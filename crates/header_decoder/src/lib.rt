// Finds at most two wrong symbols from a syndrome (header_code's Decoder.antt has the same as definitions, and proves that they are found).
// Symbols are numbers below 16; p, q, r and s are the values at a^6, a^7, a^8 and a^9. A leaf for the entries of vcdu_header.
#![tactic(auto)]

mod tables;

ghost use Rattle.std.specs.Prelude.{◌≡◌, ◌*◌, ◌<◌, ◌^◌, get_or};
ghost use Rattle.header_code.specs.Field.{◌⊕◌};
ghost use Rattle.header_code.specs.Decoder.{digit, cell, products, quotients, roots, places, lifted, one, two, from_sums, from_values, located};
ghost use Rattle.header_decoder.specs.Steps.{Symbol};

// The wrong symbols, each what is to be added at its place; the places above the ten are the virtual fill.
pub fn located(syndrome: u16) -> u64
    ensures { result ≡ located syndrome }
{
    let v = syndrome as u64;
    from_values(v / 4096, v / 256 % 16, v / 16 % 16, v % 16)
}

fn from_values(p: u64, q: u64, r: u64, s: u64) -> u64
    requires { (p < 16) × (q < 16) × (r < 16) × (s < 16) }
    ensures { result ≡ from_values p q r s }
{
    let d = plus(product(p, r), product(q, q));
    if d == 0 {
        return one(p, q);
    }
    two(p, q, r, s, d)
}

// One wrong symbol: the locator is q / p.
fn one(p: u64, q: u64) -> u64
    requires { (p < 16) × (q < 16) }
    ensures { result ≡ one p q }
{
    lift(quotient(q, p), p)
}

// Two wrong symbols: the sum and the product of the locators, from r = t q + u p and s = t r + u q with the determinant d.
fn two(p: u64, q: u64, r: u64, s: u64, d: u64) -> u64
    requires { (p < 16) × (q < 16) × (r < 16) × (s < 16) × (d < 16) }
    ensures { result ≡ two p q r s d }
{
    let t = quotient(plus(product(p, s), product(q, r)), d);
    let u = quotient(plus(product(q, s), product(r, r)), d);
    from_sums(p, q, t, u)
}

// The locators are the roots of x^2 + t x + u.
fn from_sums(p: u64, q: u64, t: u64, u: u64) -> u64
    requires { (p < 16) × (q < 16) × (t < 16) × (u < 16) }
    ensures { result ≡ from_sums p q t u }
{
    let x = root(t, u);
    let y = plus(t, x);
    let f = quotient(plus(q, product(p, y)), t);
    lift(x, f) ^ lift(y, plus(p, f))
}

// The wrong symbol of the locator x, at its place: f divided by x^6.
fn lift(x: u64, f: u64) -> u64
    requires { (x < 16) × (f < 16) }
    ensures { result ≡ lifted x f }
{
    product(f, digit(tables::SIXTHS, x)) * place(x)
}

fn place(x: u64) -> u64
    requires { x < 16 }
    ensures { result ≡ get_or places x 0 }
{
    let table = &tables::PLACES;
    table[x as usize]
}

fn plus(a: u64, b: u64) -> u64
    requires { (a < 16) × (b < 16) }
    ensures { Symbol (a ⊕ b) result }
{
    a ^ b
}

fn product(a: u64, b: u64) -> u64
    requires { (a < 16) × (b < 16) }
    ensures { Symbol (cell products a b) result }
{
    let rows = &tables::PRODUCTS;
    digit(rows[a as usize], b)
}

fn quotient(a: u64, b: u64) -> u64
    requires { (a < 16) × (b < 16) }
    ensures { Symbol (cell quotients a b) result }
{
    let rows = &tables::QUOTIENTS;
    digit(rows[a as usize], b)
}

fn root(t: u64, u: u64) -> u64
    requires { (t < 16) × (u < 16) }
    ensures { Symbol (cell roots t u) result }
{
    let rows = &tables::ROOTS;
    digit(rows[t as usize], u)
}

// Symbol b of a row.
fn digit(row: u64, b: u64) -> u64
    requires { b < 16 }
    ensures { Symbol (digit row b) result }
{
    (row >> (4 * b)) % 16
}
