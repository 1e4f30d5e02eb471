// A job, as input to a comparison.

use plan_json::Plan;
use plan_rows::RowPlan;
use std::marker::Model;

/// A job, as input to a comparison: its plan, the row plan of this plan, and the bytes of its files in the
/// order of `Plan::files`, all borrowed. Contracts see the plan and the files.
#[derive(Drop)]
pub struct Inputs<'a> {
    plan: &'a Plan,
    rows: &'a RowPlan,
    files: &'a [Vec<u8>],
}

impl<'a> Model for Inputs<'a> {
    ghost use Rattle.replate.specs.Inputs.{AreInputs, JobData, bytes_of};

    ghost Value = { JobData };

    ghost view = { λ i. record { plan = i.plan.now; files = bytes_of i.files.now } };

    ghost invariant = { λ i. AreInputs i.plan.now i.rows.now i.files.now };
}

impl<'a> Inputs<'a> {
    ghost use Rattle.std.specs.Prelude.{◌≡◌, length};
    ghost use Rattle.plan_json.specs.Plan.{IsPlan};
    ghost use Rattle.plan_rows.specs.Rows.{rows_of};
    ghost use Rattle.replate.specs.Inputs.{AreInputs, bytes_of};

    /// Returns the job of a plan and its files.
    pub fn new(plan: &'a Plan, rows: &'a RowPlan, files: &'a [Vec<u8>]) -> Inputs<'a>
        requires { AreInputs plan.now rows.now files.now }
        ensures { result ≡ record { plan = plan.now; files = bytes_of files.now } }
    {
        Inputs { plan, rows, files }
    }

    /// Returns the plan. The job has a file for each file of the plan.
    pub fn plan(&self) -> &'a Plan
        ensures plan { result.now ≡ self.now.plan }
        ensures count { length result.now.files ≡ length self.now.files }
        ensures valid { IsPlan self.now.plan }
    {
        // Reading the plan makes its invariant available to the proof.
        let _files = self.plan.files();
        self.plan
    }

    /// Returns the order of its rows.
    pub fn rows(&self) -> &'a RowPlan
        ensures { result.now ≡ rows_of self.now.plan }
    {
        self.rows
    }

    /// Returns the bytes of its files.
    pub fn files(&self) -> &'a [Vec<u8>]
        ensures { bytes_of result.now ≡ self.now.files }
    {
        self.files
    }
}
