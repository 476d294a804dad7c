// A sweep over the edges that goes on where the one before it stopped.
ghost use Rattle.std.specs.Prelude.{◌≡◌, ℕ, true, false, ◌≤◌, ◌<◌};
ghost use Rattle.acyclic.specs.Scan.{ScanIs};

// A number below m that passes the test, sought from start on and then among those before it.
pub fn find_from<F: Fn(usize) -> bool>(m: usize, start: usize, test: F) -> Option<usize>
    requires start_in_bounds { start ≤ m }
    requires callable { (i : ℕ) → i < m → F.pre test i }
    ensures { ScanIs (λ i. F.post test i true) (λ i. F.post test i false) 0 m result }
{
    if let Some(i) = find_between(start, m, &test) {
        return Some(i);
    }
    find_between(0, start, &test)
}

// The first number from lo to below hi that passes the test. By number, which is what the test takes.
fn find_between<F: Fn(usize) -> bool>(lo: usize, hi: usize, test: &F) -> Option<usize>
    requires { (i : ℕ) → i < hi → F.pre test.now i }
    ensures { ScanIs (λ i. F.post test.now i true) (λ i. F.post test.now i false) lo hi result }
{
    for i in lo..hi {
        if test(i) {
            return Some(i);
        }
    }
    None
}
