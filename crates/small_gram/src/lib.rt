// The Gram matrix of a matrix of small numbers, as its lower triangle, by blocks of 32 rows.
#![tactic(auto)]

ghost use Rattle.std.specs.Prelude.{◌≡◌, ◌+◌, ◌*◌, ◌^◌, ◌<◌, ◌≤◌, pos, nat_abs, ◌+ℤ◌, ◌*ℤ◌, length, get_or};
ghost use Rattle.integers.specs.Lists.{build};
ghost use Rattle.matrices.specs.Matrices.{gram};
ghost use Rattle.matrices.specs.Tables.{signed};
ghost use Rattle.matrices.specs.Triangles.{triangular, lower, mirrored_plus};
ghost use Rattle.small_rows.specs.Small.{Within, SmallMatrix, SmallBlocks};
ghost use Rattle.small_gram.specs.Blocks.{block_of, BlockFits};

mod packing;

// Adds f times the products of the block's column i with the columns up to it to `row`, row i of a triangle.
fn add_row(p: &[i16], i: usize, f: i64, row: &mut [i64])
    requires { BlockFits (i + 1) p.now × ((i + 1) * 32 ≤ length p.now) × (nat_abs f ≤ 2 ^ 20)
        × (length row.old ≡ i + 1) × Within (2 ^ 61) row.old }
    ensures { row.new ≡ build (i + 1)
        (λ j. get_or row.old j (pos 0) +ℤ f *ℤ block_of p.now i j) }
{
    for (j, x) in row.iter_mut().enumerate() {
        let v = dots::thirty_two(p, p, i * 32, j * 32);
        *x = matrices::add_product(*x, f, v as i64);
    }
}

// Adds f times the block's products to the triangle d.
fn add_block(p: &[i16], n: usize, f: i64, d: &mut [i64])
    requires { BlockFits n p.now × (n * 32 ≤ length p.now) × (nat_abs f ≤ 2 ^ 20)
        × (length d.old ≡ triangular n) × Within (2 ^ 61) d.old }
    ensures { d.new
        ≡ lower n (mirrored_plus d.old (λ a b. f *ℤ block_of p.now a b)) }
{
    let mut start: usize = 0;
    for i in 0..n {
        let end = start + i + 1;
        add_row(p, i, f, &mut d[start..end]);
        start = end;
    }
}

// The Gram matrix by blocks of 32 rows. The block has room for 512 columns of 32 numbers.
fn packed_gram(s: &[i64], m: usize, cols: usize, out: &mut [i64])
    requires { SmallMatrix 32767 m cols s.now × SmallBlocks cols s.now × (m ≤ 4096)
        × (length out.old ≡ triangular cols) }
    ensures { out.new ≡ lower cols (gram m (signed cols s.now)) }
{
    out.fill(0);
    let mut p = [0i16; 16384];
    for base in (0..m).step_by(32) {
        packing::pack(s, m, cols, base, &mut p);
        add_block(&p, cols, 1, out);
    }
}

// The Gram matrix of s, an m by cols matrix, as its lower triangle: D~ of the digits S~. Fewer than 8 rows take longer
// to pack, as 32, than to multiply as they are stored.
pub fn small_gram(s: &[i64], m: usize, cols: usize, out: &mut [i64])
    requires { SmallMatrix 32767 m cols s.now × SmallBlocks cols s.now × (m ≤ 4096)
        × (length out.old ≡ triangular cols) }
    ensures { out.new ≡ lower cols (gram m (signed cols s.now)) }
{
    if 0 < m && m < 8 {
        cross_products::lower_products(s, m, cols, out);
    } else {
        packed_gram(s, m, cols, out);
    }
}
