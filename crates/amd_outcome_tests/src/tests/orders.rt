// Orders of rows that no ordering gives.

use amd_testing::inputs::draw;
use std::alloc::{AllocError, Global};

/// Lists that are no order of four rows.
static NO_ORDERS: [&[i64]; 6] = [
    &[],
    &[0, 1, 2],
    &[0, 1, 2, 2],
    &[0, 1, 2, 4],
    &[0, 1, 2, -1],
    &[0, 1, 2, 3, 0],
];

/// The lists that are no order of four rows.
pub fn no_orders() -> &'static [&'static [i64]] {
    &NO_ORDERS
}

/// The rows as they stand.
pub fn rows_of(alloc: Global, n: i64) -> Result<Vec<i64>, AllocError> {
    let mut p = Vec::new(alloc);
    for row in 0..n {
        p.push(row)?;
    }
    Ok(p)
}

/// The rows, each changed for one that is drawn.
pub fn shuffle(p: &mut [i64], seed: u64) {
    let mut state = seed;
    for k in 0..p.len() {
        let other = usize::try_from(draw(&mut state, p.len() as u64)).unwrap_or(0);
        if other < p.len() {
            p.swap(k, other);
        }
    }
}

/// The rows as they stand, reversed, and so many times as they are drawn, each time from the order before.
pub fn other_orders(alloc: Global, n: i64, drawn: u64) -> Result<Vec<Vec<i64>>, AllocError> {
    let mut orders = Vec::new(alloc);
    let mut p = rows_of(alloc, n)?;
    orders.push(p.to_vec(alloc)?)?;
    p.reverse();
    orders.push(p.to_vec(alloc)?)?;
    for seed in 1..=drawn {
        shuffle(&mut p, seed);
        orders.push(p.to_vec(alloc)?)?;
    }
    Ok(orders)
}
