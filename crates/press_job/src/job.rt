// A job: a plan and its files, all of which have passed their tests, and the order of its rows.
ghost use Rattle.std.specs.Prelude.{◌≡◌, length, map};

use crate::files::Files;
use plan_json::Plan;
use plan_pages::PlateShape;
use plan_rows::RowPlan;
use pr_base::{Deal, row_bytes};
use std::marker::Model;
use tif_packbits::frame_len;

/// A plan whose files pass the tests of their uses, and whose crops and masks fit their images. Nothing made
/// from it can be refused, except for lack of memory. Contracts see the plan and the bytes of its files in
/// order.
#[derive(Drop)]
pub struct Job {
    plan: Plan,
    rows: RowPlan,
    shape: PlateShape,
    files: Files,
}

impl Model for Job {
    ghost use Rattle.press_job.specs.Job.{IsJob, JobData};

    ghost Value = { JobData };

    ghost view = { λ job. record { plan = job.plan; files = job.files.bytes } };

    ghost invariant = { λ job. IsJob job.plan job.files job.rows job.shape };
}

impl Job {
    ghost use Rattle.plan_json.specs.Plan.{IsPlan};
    ghost use Rattle.press_job.specs.Findings.{HaveLayers};
    ghost use Rattle.press_job.specs.Fit.{ArePlanned};
    ghost use Rattle.press_job.specs.Job.{IsJob};
    ghost use Rattle.plan_pages.specs.Plate.{shape_of_plate};
    ghost use Rattle.plan_rows.specs.Rows.{rows_of};

    /// Returns a job of a plan, its row plan, the shape of its plates and its files, which have passed all
    /// tests.
    pub(crate) fn of(plan: Plan, rows: RowPlan, shape: PlateShape, files: Files) -> Job
        requires { IsJob plan files rows shape }
        ensures { result ≡ record { plan = plan; files = files.bytes } }
    {
        Job {
            plan,
            rows,
            shape,
            files,
        }
    }

    /// Lends the files, which have passed all tests, with what these found for each layer.
    pub(crate) fn tested_files(&self) -> &Files
        ensures files { result.now.bytes ≡ self.now.files }
        ensures planned { ArePlanned self.now.plan self.now.files }
        ensures found { HaveLayers self.now.plan result.now }
    {
        &self.files
    }

    /// Lends the bytes of the files, in the order of `Plan::files`.
    pub fn files(&self) -> &[Vec<u8>]
        ensures bytes { map (λ file. file.items) result.now ≡ self.now.files }
        ensures count { length result.now ≡ length self.now.plan.files }
    {
        self.files.each()
    }

    /// Lends the plan.
    pub fn plan(&self) -> &Plan
        ensures plan { result.now ≡ self.now.plan }
        ensures valid { IsPlan self.now.plan }
    {
        &self.plan
    }

    /// Lends the order of the rows.
    pub fn rows(&self) -> &RowPlan
        ensures { result.now ≡ rows_of self.now.plan }
    {
        &self.rows
    }

    /// The sides of the plates, and the positions of the pages on them.
    pub fn shape(&self) -> PlateShape
        ensures { result ≡ shape_of_plate self.now.plan }
    {
        self.shape
    }
}

impl Deal for Job {
    ghost use Rattle.pr_base.specs.Row.{row_size};
    ghost use Rattle.tif_packbits.specs.Frame.{frame_size};
    ghost use Rattle.plan_json.specs.Data.{plate_width};
    ghost use Rattle.press_job.specs.Rows.{plate_frames};

    ghost rows = { λ job. plate_frames job.plan job.files };

    ghost size = { λ job. frame_size (row_size (plate_width job.plan)) };

    fn total(&self) -> u64 {
        self.rows.total()
    }

    fn row_len(&self) -> usize {
        frame_len(row_bytes(self.shape.width))
    }
}
