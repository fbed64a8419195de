// The station file as it arrives in chunks.
ghost use Rattle.std.specs.Prelude.{◌≡◌, true, List, [], ◌++◌, ℕ};
ghost use Rattle.rules.specs.StationFile.{station_file};
ghost use Rattle.rules.specs.Answers.{result_of};
ghost use Rattle.station.specs.Stations.{station_with, too_long, is_refused};

use crate::reader::read_station;
use rules::answers::Refusal;
use rules::station::Station;
use station_fields::layout;

// "a file has 165 to 676 bytes": one more byte tells that it has too many.
const MOST_HELD: usize = layout::MOST_FILE + 1;

// The bytes that have arrived, up to one more than a station file may have.
#[derive(Clone, Copy)]
pub struct StationBytes {
    pub bytes: [u8; MOST_HELD],
    pub len: usize,
}

// No byte yet.
pub fn station_bytes() -> StationBytes
    ensures { (rest : List ℕ) → station_with result rest ≡ station_file rest }
{
    StationBytes {
        bytes: [0; MOST_HELD],
        len: 0,
    }
}

// The next bytes of the file; those of a file that is too long are not wanted any more.
pub fn more_station(file: StationBytes, chunk: &[u8]) -> StationBytes
    ensures { (rest : List ℕ) → station_with file (chunk.now ++ rest) ≡ station_with result rest }
{
    let mut bytes = file.bytes;
    let held = file.len.min(MOST_HELD);
    if MOST_HELD - held < chunk.len() {
        return StationBytes {
            bytes,
            len: MOST_HELD,
        };
    }
    let len = held + chunk.len();
    bytes[held..len].copy_from_slice(chunk);
    StationBytes { bytes, len }
}

// The file has ended: its record, or its refusal.
pub fn station_of(file: StationBytes) -> Result<Station, Refusal>
    ensures { result_of result ≡ station_with file [] }
{
    let bytes = file.bytes;
    let len = file.len.min(MOST_HELD);
    read_station(&bytes[..len])
}

// Whether the file is refused, so that no sample need be read.
pub fn is_station_refused(file: StationBytes) -> bool
    ensures { result ≡ is_refused (station_with file []) }
{
    station_of(file).is_err()
}

// Whether the file has more bytes than a station file may have, so that no further byte changes the answer.
pub fn is_too_long(file: StationBytes) -> bool
    ensures { (result ≡ too_long file) × (result ≡ true → (rest : List ℕ) → station_with file [] ≡ station_with file rest) }
{
    MOST_HELD <= file.len
}
