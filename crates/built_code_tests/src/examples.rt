//! The code of the programs under examples/.

use crate::promises::assert_kept;
use example_texts::{
    BICYCLE_REPAIR, CALCULATOR, DERIVATIVE, EXPRESSIONS, FACTS, FAMILY, FOOTPATHS, HANOI, HUFFMAN,
    KNIGHTS_TOUR, LAMBDA_TYPES, LIFE, MATRICES, PARAGRAPH, QUEENS, RIVER_CROSSING, ROUTES,
    RUN_LENGTH, SEARCH_TREE, SEND_MORE_MONEY, SIGHTINGS, SORTING, WHILE_LANGUAGE, ZEBRA,
};
use std::test::Fail;

/// All of them.
const PROGRAMS: [&str; 24] = [
    BICYCLE_REPAIR,
    CALCULATOR,
    DERIVATIVE,
    EXPRESSIONS,
    FACTS,
    FAMILY,
    FOOTPATHS,
    HANOI,
    HUFFMAN,
    KNIGHTS_TOUR,
    LAMBDA_TYPES,
    LIFE,
    MATRICES,
    PARAGRAPH,
    QUEENS,
    RIVER_CROSSING,
    ROUTES,
    RUN_LENGTH,
    SEARCH_TREE,
    SEND_MORE_MONEY,
    SIGHTINGS,
    SORTING,
    WHILE_LANGUAGE,
    ZEBRA,
];

#[test]
fn examples(rt: HostRuntime) -> Result<(), Fail> {
    for program in PROGRAMS {
        assert_kept(&rt, rt.alloc(), program)?;
    }
    Ok(())
}
