//! Where items go down beside the line of their rank.

use crate::arrow::Arrow;
use std::alloc::{AllocError, Global};

/// The most lanes on a side.
const MOST_LANES: usize = 8;

/// The lane of each arrow, from 0. Items of one move share one.
pub(crate) fn lanes_of(alloc: Global, arrows: &[Arrow]) -> Result<Vec<usize>, AllocError> {
    let mut lanes = Vec::new(alloc);
    for arrow in arrows {
        let lane = free_lane(arrows, lanes.as_slice(), arrow);
        lanes.push(lane)?;
    }
    Ok(lanes)
}

/// The first lane that no earlier arrow has which is still on its way. What isn't taken has none, and stands in lane 0.
fn free_lane(arrows: &[Arrow], lanes: &[usize], arrow: &Arrow) -> usize {
    if arrow.end.is_none() {
        return 0;
    }
    for lane in 0..MOST_LANES {
        if !is_busy(arrows, lanes, arrow, lane) {
            return lane;
        }
    }
    MOST_LANES
}

/// Whether an earlier arrow is in the way of this one in a lane.
fn is_busy(arrows: &[Arrow], lanes: &[usize], arrow: &Arrow, lane: usize) -> bool {
    for (number, other) in lanes.iter().enumerate() {
        if let Some(earlier) = arrows.get(number) {
            if *other == lane && is_in_the_way(earlier, arrow) {
                return true;
            }
        }
    }
    false
}

/// Whether an earlier arrow stands beside the same line where this one begins.
fn is_in_the_way(earlier: &Arrow, arrow: &Arrow) -> bool {
    earlier.from == arrow.from
        && earlier.is_rightward() == arrow.is_rightward()
        && earlier.start != arrow.start
        && earlier.end.unwrap_or(0) > arrow.start
}

/// How many lanes a side of a rank's line has.
pub(crate) fn lanes_beside(
    arrows: &[Arrow],
    lanes: &[usize],
    rank: usize,
    is_rightward: bool,
) -> usize {
    let mut most = 0_usize;
    for (number, lane) in lanes.iter().enumerate() {
        if let Some(arrow) = arrows.get(number) {
            if arrow.from == rank && arrow.is_rightward() == is_rightward && arrow.end.is_some() {
                most = most.max(lane.saturating_add(1));
            }
        }
    }
    most
}
