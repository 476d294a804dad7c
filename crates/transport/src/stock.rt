// What the nodes have still to send and to get.

// The supply of each node, and its demand.
#[derive(Drop)]
pub struct Stock<'a> {
    pub supply: &'a mut [usize],
    pub demand: &'a mut [usize],
}
