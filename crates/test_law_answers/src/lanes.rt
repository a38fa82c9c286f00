//! Cases of elements side by side, two in each, over the field of 65537 elements: a call, the elements, and a lane.

use ark_fields::F65537;
use ark_rows::{Row, lane_of};
use std::alloc::Global;
use test_cases::answers::Answer;
use test_cases::words::{elements, no_case, no_fit, size, text_of};

/// The elements in the lane.
pub fn answer(alloc: Global, words: &[String]) -> Answer {
    let [name, list, lane] = words else {
        return no_case(alloc);
    };
    let lane = size(lane.as_str());
    if name.as_str() != "lane_of" || lane >= 2 {
        return no_fit(alloc);
    }
    let list = elements::<F65537>(alloc, list.as_str())?;
    let mut rows = Vec::new(alloc);
    for k in 0..list.len() / 2 {
        rows.push(Row::<F65537, 2>::new([list[2 * k], list[2 * k + 1]]))?;
    }
    text_of(alloc, &lane_of(alloc, &rows, lane)?)
}
