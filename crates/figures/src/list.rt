//! The list of all that is worked out.
ghost use Rattle.figures.specs.Figures.{AllWorked};

use crate::worked::worked_figures_stand;
use run::example::example_stands;

/// The worked figures and the worked runs stand, together.
pub(crate) fn all_figures_stand()
    ensures { AllWorked }
{
    worked_figures_stand();
    example_stands();
}
