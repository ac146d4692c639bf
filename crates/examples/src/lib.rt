#![tactic(auto)]

ghost use Rattle.std.specs.Prelude.{◌≡◌, length};
ghost use Rattle.examples.specs.Examples.{examples, ExamplesStand};

// The number of worked examples.
pub fn example_count() -> u8
    ensures { result ≡ length examples }
{
    10
}

// Every worked example comes out as it should.
pub fn examples_stand() -> u8
    ensures stand { ExamplesStand }
    ensures count { result ≡ length examples }
{
    example_count()
}
