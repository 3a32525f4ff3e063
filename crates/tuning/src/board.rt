// The radio's board: what its number says of converters and filters.
ghost use Rattle.std.specs.Prelude.{◌≡◌};
ghost use Rattle.tuning.specs.Board.{info_of, board_info};

// Which family of Alex filter words a board takes.
#[derive(Clone, Copy)]
pub enum FilterScheme {
    None,
    Classic,
    BandPassDual,
    BandPass,
    Bypass,
}

#[derive(Clone, Copy)]
pub struct BoardInfo {
    pub id: Option<u8>,
    // receive packet, byte 4
    pub adc_count: u8,
    // general packet, byte 59
    pub filter_enable: u8,
    pub scheme: FilterScheme,
}

fn info(id: Option<u8>, adcs: u8, enable: u8, scheme: FilterScheme) -> BoardInfo
    ensures { result ≡ info_of id adcs enable scheme }
{
    BoardInfo {
        id,
        adc_count: adcs,
        filter_enable: enable,
        scheme,
    }
}

// A board number that is not known goes as one that was not asked for.
#[tactic(auto, unfolding(base::specs::Pick::pick, crate::specs::Board::board_info))]
pub fn board_info(id: Option<u8>) -> BoardInfo
    ensures { result ≡ board_info id }
{
    let Some(n) = id else {
        return info(id, 1, 0x01, FilterScheme::Bypass);
    };
    match n {
        0 | 6 => info(id, 1, 0x00, FilterScheme::None),
        1 | 2 => info(id, 1, 0x01, FilterScheme::Classic),
        3 | 4 => info(id, 2, 0x01, FilterScheme::Classic),
        5 | 10 | 11 => info(id, 2, 0x03, FilterScheme::BandPassDual),
        20 => info(id, 1, 0x01, FilterScheme::BandPass),
        _ => info(id, 1, 0x01, FilterScheme::Bypass),
    }
}
