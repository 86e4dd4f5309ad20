//! Which of the nodes that wait is served next.
ghost use Rattle.std.specs.Prelude.{◌≡◌, ◌+◌, ◌<◌, ◌≤◌, ◌^◌, length, slice_index_or};
ghost use Rattle.sp_sparse.specs.Order.{AreDifferent, IsFirst, number_of, turn_of};

/// An order of service.
///
/// The solution is the same whatever is picked, and so are the bounds on evaluations.
pub trait Picker {
    /// The index of the node that is served next, among the first [`MOST_SHOWN`](crate::MOST_SHOWN) of those that wait.
    /// A node comes in behind the others; where one in between is served, the last takes its place.
    fn pick(&mut self, waiting: &[u32]) -> usize
        requires { 0 < length waiting.now }
        ensures { result < length waiting.now };
}

/// Serves the first of the nodes that wait: where none but the first was ever served, the one that has waited longest.
#[derive(Clone, Copy, Debug)]
pub struct First;

impl Picker for First {
    fn pick(&mut self, _waiting: &[u32]) -> usize
        requires { 0 < length _waiting.now }
        ensures below { result < length _waiting.now }
        ensures first { result ≡ 0 }
    {
        0
    }
}

/// Serves the last node that is shown: the one that came last where no more than [`MOST_SHOWN`](crate::MOST_SHOWN) wait,
/// and else one that came earlier.
#[derive(Clone, Copy, Debug)]
pub struct Last;

impl Picker for Last {
    fn pick(&mut self, waiting: &[u32]) -> usize
        requires { 0 < length waiting.now }
        ensures below { result < length waiting.now }
        ensures last { result + 1 ≡ length waiting.now }
    {
        waiting.len() - 1
    }
}

/// The number of a node in an order; one that has none comes after all others.
fn number_of(order: &[u32], node: u32) -> u64
    ensures number { result ≡ number_of order.now node }
    ensures low { result ≤ 2 ^ 32 }
{
    match order.get(node as usize) {
        Some(number) => u64::from(*number),
        None => 1 << 32,
    }
}

fn turn_of(next: u64, number: u64) -> u64
    requires { number ≤ 2 ^ 32 }
    ensures { result ≡ turn_of next number }
{
    if number < next {
        number + (1 << 33)
    } else {
        number
    }
}

/// The place of the node that comes first, where a sweep goes on from a number.
fn first_from(order: &[u32], next: u64, waiting: &[u32]) -> usize
    requires { 0 < length waiting.now }
    ensures below { result < length waiting.now }
    ensures first { IsFirst order.now next waiting.now result }
{
    let mut place = 0;
    let mut least = turn_of(next, number_of(order, waiting[0]));
    for (at, node) in waiting.iter().enumerate() {
        let turn = turn_of(next, number_of(order, *node));
        if turn < least {
            place = at;
            least = turn;
        }
    }
    place
}

/// Serves the node of least number in an order, among those that are shown. A node without a number
/// comes after all others; of two such the one that stands first comes first.
#[derive(Debug, Drop)]
pub struct ByOrder {
    order: Vec<u32>,
}

impl ByOrder {
    /// Serves in this order: a number for each node, all different.
    pub fn new(order: Vec<u32>) -> ByOrder
        requires { AreDifferent order.items }
        ensures { result.order.items ≡ order.items }
    {
        ByOrder { order }
    }
}

impl Picker for ByOrder {
    fn pick(&mut self, waiting: &[u32]) -> usize
        requires { 0 < length waiting.now }
        ensures below { result < length waiting.now }
        ensures first { IsFirst self.old.order.items 0 waiting.now result }
    {
        first_from(self.order.as_slice(), 0, waiting)
    }
}

/// Serves in sweeps: in each the nodes that wait come in the order of their numbers, as [`ByOrder`]
/// takes them. One that comes to wait behind the sweep's place is served in the next. So no loop keeps
/// the nodes behind it waiting for long.
#[derive(Debug, Drop)]
pub struct BySweeps {
    order: Vec<u32>,
    next: u64,
}

impl BySweeps {
    /// Sweeps over this order: a number for each node, all different.
    pub fn new(order: Vec<u32>) -> BySweeps
        requires { AreDifferent order.items }
        ensures order { result.order.items ≡ order.items }
        ensures begin { result.next ≡ 0 }
    {
        BySweeps { order, next: 0 }
    }
}

impl Picker for BySweeps {
    fn pick(&mut self, waiting: &[u32]) -> usize
        requires { 0 < length waiting.now }
        ensures below { result < length waiting.now }
        ensures first { IsFirst self.old.order.items self.old.next waiting.now result }
        ensures next { self.new.next ≡ number_of self.old.order.items (slice_index_or waiting.now result 0) + 1 }
        ensures order { self.new.order.items ≡ self.old.order.items }
    {
        let place = first_from(self.order.as_slice(), self.next, waiting);
        self.next = number_of(self.order.as_slice(), waiting[place]) + 1;
        place
    }
}
