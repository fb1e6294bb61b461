//! The laws of rows: they are the contract of a function that does nothing else.
ghost use Rattle.rows.specs.Laws.{DaysLaw, PercentagesLaw, PointsLaw, PricesLaw, PositionsLaw};
ghost use Rattle.rows.specs.Columns.{DayColumns, PercentageColumns, PointColumns, PriceColumns, PositionColumns};

/// Of each kind: each part of a row is spelled under one of the needed names, the cells of an
/// accepted row are the spelling of the row that is read, and the spelling of a row within its
/// ranges is read as that row. A cell under a needed name fits just where it spells what its
/// column may hold.
pub fn rows_laws_stand()
    ensures days_law { DaysLaw }
    ensures percentages_law { PercentagesLaw }
    ensures points_law { PointsLaw }
    ensures prices_law { PricesLaw }
    ensures positions_law { PositionsLaw }
    ensures day_columns { DayColumns }
    ensures percentage_columns { PercentageColumns }
    ensures point_columns { PointColumns }
    ensures price_columns { PriceColumns }
    ensures position_columns { PositionColumns }
{}
