// A row of the sample file, its powers in W.
#[derive(Clone, Copy)]
pub struct Sample {
    pub at: u32,
    pub load: u32,
    pub solar: u32,
    pub sheddable: u32,
}
