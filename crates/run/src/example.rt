//! Runs worked out by the definitions.
ghost use Rattle.run.specs.Example.{ExampleRuns};

/// The example runs come to what they should.
pub fn example_stands()
    ensures { ExampleRuns }
{}
