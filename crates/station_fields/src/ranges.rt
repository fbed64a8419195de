// Bounds of numbers in the width that the code asks them in, where a bound is asked by itself and not as a row's whole range.
use crate::control::SHED_DELAY;
use crate::genset::{PAIR_LOAD, PAIR_RATE, POINTS, RATING};
use crate::layout::{CONFIGURATIONS_PART, SETS_PART};

pub const SHED_DELAY_LEAST: u32 = SHED_DELAY.least as u32;

pub const SHED_DELAY_MOST: u32 = SHED_DELAY.most as u32;

pub const RATING_LEAST: u32 = RATING.least as u32;

pub const RATING_MOST: u32 = RATING.most as u32;

pub const POINTS_LEAST: u32 = POINTS.least as u32;

pub const POINTS_MOST: u32 = POINTS.most as u32;

pub const PAIR_LOAD_MOST: u32 = PAIR_LOAD.most as u32;

pub const PAIR_RATE_MOST: u32 = PAIR_RATE.most as u32;

// How many sets and configurations there are.
pub const SETS_LEAST: usize = SETS_PART.least as usize;

pub const SETS_MOST: usize = SETS_PART.most as usize;

pub const CONFIGURATIONS_LEAST: usize = CONFIGURATIONS_PART.least as usize;

pub const CONFIGURATIONS_MOST: usize = CONFIGURATIONS_PART.most as usize;
