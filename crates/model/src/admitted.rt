// A sheet that has passed the tests 4, 5, 2, 6 and 7: `admission` makes them.
ghost use Rattle.model.specs.Memory.{sheet_of};
ghost use Rattle.model.specs.Admission.{Admitted};
ghost use Rattle.model.specs.AdmittedOnce.{admitted_once};

use crate::Sheet;

#[derive(Clone, Copy)]
pub struct AdmittedSheet {
    pub columns: Sheet,
    pub ghost admitted: { Admitted (sheet_of columns) } by { admitted_once (sheet_of columns) },
}
