// What judges look for in a row of parts.
ghost use Rattle.std.specs.Prelude.{◌≡◌};
ghost use Rattle.subset.specs.Parts.{within};

// Whether all of a set are among them.
pub fn all_in(set: &[u64], subset: &[u64]) -> bool
    ensures { result ≡ within set.now subset.now }
{
    set.iter().all(|part| subset.contains(part))
}
