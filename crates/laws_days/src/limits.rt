//! The limits that contracts name by a constant of the code.
ghost use Rattle.std.specs.Prelude.{◌≡◌, true, false, [], ◌∷◌, replicate};
ghost use Rattle.fix_fields.specs.declared.limits.TheConstants as frames;
ghost use Rattle.market_terms.specs.Dealers.{are_askable};
ghost use Rattle.market_terms.specs.Texts.{is_id};
ghost use Rattle.market_terms.specs.declared.quantities.TheConstants.Quantity as quantity;
ghost use Rattle.market_terms.specs.declared.rooms.TheConstants.AskedDealers as asked;
ghost use Rattle.step_replay.specs.declared.steps.TheConstants as steps;
ghost use Rattle.venue_rows.specs.declared.config.TheConstants.VenueConfig as venue;
ghost use Rattle.venue_rows.specs.declared.dealer_rows.TheConstants.DealerRow as dealer;
ghost use Rattle.venue_rows.specs.declared.investor_rows.TheConstants.InvestorRow as investor;
ghost use Rattle.venue_rows.specs.declared.traders.TheConstants.Traders as traders;

/// The limits of the market's messages and of a configuration are the numbers of the pages.
/// (Contracts name them by constants of the code, and so would hold of others, too.)
pub fn limits_are_as_written()
    // A frame, its body, and the milliseconds of a day.
    ensures frame { frames.MOST_FRAME ≡ 4096 }
    ensures body { frames.MOST_BODY ≡ 4071 }
    ensures milliseconds { frames.A_DAY ≡ 86400000 }

    // The longest identifier, the greatest quantity, and how many dealers a request names.
    ensures id { is_id (replicate 40 65) ≡ true }
    ensures no_id { is_id (replicate 41 65) ≡ false }
    ensures units { quantity.MOST ≡ 1000000000000 }
    ensures named { asked.MOST ≡ 8 }
    ensures eight { are_askable (0 ∷ 1 ∷ 2 ∷ 3 ∷ 4 ∷ 5 ∷ 6 ∷ 7 ∷ []) ≡ true }
    ensures not_nine { are_askable (0 ∷ 1 ∷ 2 ∷ 3 ∷ 4 ∷ 5 ∷ 6 ∷ 7 ∷ 8 ∷ []) ≡ false }

    // How many duties are done behind a step that comes live, at most.
    ensures turns { steps.MOST_TURNS_BEHIND ≡ 18446744073709551615 }

    // A configuration: its versions, its rows, and what a row may say.
    ensures version { venue.LAST_VERSION ≡ 3 }
    ensures grids { venue.GRIDS_SINCE ≡ 2 }
    ensures bands { venue.BANDS_SINCE ≡ 3 }
    ensures bonds { venue.MOST_BONDS ≡ 1024 }
    ensures dealers { venue.MOST_DEALERS ≡ 64 }
    ensures investors { venue.MOST_INVESTORS ≡ 64 }
    ensures traders_of_a_firm { traders.MOST ≡ 16 }
    ensures quotes { dealer.MOST_QUOTES ≡ 4096 }
    ensures exposure_of_a_dealer { dealer.MOST_EXPOSURE ≡ 1000000000000000 }
    ensures requests { investor.MOST_REQUESTS ≡ 1024 }
    ensures open_at_once { investor.MOST_OPEN ≡ 1024 }
    ensures units_of_a_request { investor.MOST_QUANTITY ≡ 1000000000000 }
    ensures quotes_in_all { venue.MOST_QUOTES_IN_ALL ≡ 65536 }
    ensures requests_in_all { venue.MOST_REQUESTS_IN_ALL ≡ 4096 }
{}
