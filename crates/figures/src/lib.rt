// The worked figures, proved together.
#![tactic(auto)]

ghost use Rattle.figures.specs.Figures.{Figures};

use scan::inspector::Inspector;

// Every figure stands, whatever inspector the calls bring.
pub fn figures_stand<I: Inspector>()
    ensures { Figures I.Inspector.step }
{}
