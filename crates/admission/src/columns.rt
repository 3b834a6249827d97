// Loops through the first elements of a column, or of two side by side.
ghost use Rattle.std.specs.Prelude.{◌≡◌, ◌-◌, ◌≤◌, length};
ghost use Rattle.numbers.specs.Counting.{every};
ghost use Rattle.model.specs.Limits.{◌–◌};
ghost use Rattle.admission.specs.ColumnTests.{inside_at, apart_at};

// Whether each of the first `count` elements is in the range from `least` to `most`.
pub fn all_inside(column: &[u32], count: usize, least: u32, most: u32) -> bool
    requires { count ≤ length column.now }
    ensures { result ≡ every (inside_at (least – most) column.now) count }
{
    let mut all = true;
    for &value in &column[..count] {
        all = (least <= value) & (value <= most) & all;
    }
    all
}

// Where the element of another column stands that one is compared with.
pub const BESIDE: usize = 0;

pub const NEXT: usize = 1;

// Whether each element of `a`, and `by` more, is at most the element of `b` that stands `ahead` places further on, among the first `count` of both.
pub fn all_apart<'a>(a: &'a [u32], b: &'a [u32], count: usize, ahead: usize, by: u64) -> bool
    requires { (count ≤ length a.now) × (count ≤ length b.now) × (by ≤ 1) }
    ensures { result ≡ every (apart_at ahead by a.now b.now) (count - ahead) }
{
    let mut all = true;
    for k in ahead..count {
        all = (u64::from(a[k - ahead]) + by <= u64::from(b[k])) & all;
    }
    all
}
