//! Small plans.

use element_tree::{Plan, RegexPatterns, build};
use plan_json::read_tree;
use std::alloc::Global;
use std::test::Fail;

/// A loop of three rounds over two samplers, which are the elements 3 and 4.
pub const LOOP: &[u8] =
    b"{\"type\":\"TestPlan\",\"children\":[{\"type\":\"ThreadGroup\",\"name\":\"TG\",\"children\":[{\"type\":\"Loop\",\"props\":{\"loops\":3},\"children\":[{\"type\":\"Script\",\"name\":\"A\",\"props\":{\"replies\":[{\"ms\":5},{\"code\":500,\"message\":\"Bad\",\"ms\":7}]}},{\"type\":\"Script\",\"name\":\"B\",\"props\":{\"replies\":[{\"body\":\"hi\",\"ms\":2}]}}]}]}]}";

/// One thread over two samplers, which are the elements 2 and 3.
pub const TWO_SAMPLES: &[u8] =
    b"{\"type\":\"TestPlan\",\"children\":[{\"type\":\"ThreadGroup\",\"name\":\"TG\",\"children\":[{\"type\":\"Script\",\"name\":\"A\",\"props\":{\"replies\":[{\"ms\":5}]}},{\"type\":\"Script\",\"name\":\"B\",\"props\":{\"replies\":[{\"ms\":2}]}}]}]}";

/// Two threads over one sampler, which is the element 2.
pub const TWO_THREADS: &[u8] =
    b"{\"type\":\"TestPlan\",\"children\":[{\"type\":\"ThreadGroup\",\"name\":\"TG\",\"props\":{\"threads\":2},\"children\":[{\"type\":\"Script\",\"name\":\"A\",\"props\":{\"replies\":[{\"ms\":5}]}}]}]}";

/// Eight threads, each of which enters a section ten times, over one sampler in it, which is the element 3.
pub const SECTION: &[u8] =
    b"{\"type\":\"TestPlan\",\"children\":[{\"type\":\"ThreadGroup\",\"name\":\"TG\",\"props\":{\"loops\":10,\"threads\":8},\"children\":[{\"type\":\"CriticalSection\",\"props\":{\"lock\":\"l\"},\"children\":[{\"type\":\"Script\",\"name\":\"A\",\"props\":{\"replies\":[{\"ms\":5}]}}]}]}]}";

/// The same with 64 threads, each of which enters the section twenty times.
pub const CROWDED_SECTION: &[u8] =
    b"{\"type\":\"TestPlan\",\"children\":[{\"type\":\"ThreadGroup\",\"name\":\"TG\",\"props\":{\"loops\":20,\"threads\":64},\"children\":[{\"type\":\"CriticalSection\",\"props\":{\"lock\":\"l\"},\"children\":[{\"type\":\"Script\",\"name\":\"A\",\"props\":{\"replies\":[{\"ms\":5}]}}]}]}]}";

/// One thread that makes failing samples for ever.
pub const FAILING: &[u8] =
    b"{\"type\":\"TestPlan\",\"children\":[{\"type\":\"ThreadGroup\",\"name\":\"TG\",\"props\":{\"loops\":-1},\"children\":[{\"type\":\"Script\",\"name\":\"A\",\"props\":{\"replies\":[{\"code\":500}]}}]}]}";

/// Two threads that make samples for ever, where one that fails ends the test.
pub const STOP_TEST: &[u8] =
    b"{\"type\":\"TestPlan\",\"children\":[{\"type\":\"ThreadGroup\",\"name\":\"TG\",\"props\":{\"loops\":-1,\"onError\":\"stopTest\",\"threads\":2},\"children\":[{\"type\":\"Script\",\"name\":\"A\",\"props\":{\"replies\":[{}]}}]}]}";

/// The same with samples that fail.
pub const STOP_TEST_FAILING: &[u8] =
    b"{\"type\":\"TestPlan\",\"children\":[{\"type\":\"ThreadGroup\",\"name\":\"TG\",\"props\":{\"loops\":-1,\"onError\":\"stopTest\",\"threads\":2},\"children\":[{\"type\":\"Script\",\"name\":\"A\",\"props\":{\"replies\":[{\"code\":500}]}}]}]}";

// A plan of that many threads, each of which makes 100 samples of 5 milliseconds: the text before and after the number.
const BEFORE: &[u8] =
    b"{\"type\":\"TestPlan\",\"children\":[{\"type\":\"ThreadGroup\",\"name\":\"TG\",\"props\":{\"loops\":100,\"threads\":";

const AFTER: &[u8] =
    b"},\"children\":[{\"type\":\"Script\",\"name\":\"A\",\"props\":{\"replies\":[{\"ms\":5}]}}]}]}";

/// A plan of that many threads, each of which makes 100 samples of 5 milliseconds.
pub fn many_samples(alloc: Global, threads: &[u8]) -> Result<Vec<u8>, Fail> {
    let mut text = Vec::new(alloc);
    for piece in [BEFORE, threads, AFTER] {
        text.extend_from_slice(piece)?;
    }
    Ok(text)
}

/// The plan of a text.
pub fn plan_of(alloc: Global, text: &[u8]) -> Result<Plan, Fail> {
    let mut patterns = RegexPatterns::new(Vec::new(alloc));
    let tree = read_tree(alloc, text)?;
    Ok(build(alloc, &tree, &mut patterns)?)
}
