// The error diffusion of one ink of one page after the other, eight rows at a time.
ghost use Rattle.std.specs.Prelude.{◌≡◌, ◌+◌, ◌-◌, ◌*◌, ◌<◌, ◌≤◌, ◌↔◌, IfOk, IsTrue, length, true};
ghost use Rattle.pr_base.specs.Bits.{SetsBits};
ghost use Rattle.press_feed.specs.ChainRows.{IsNextFor, at_top, behind_block};
ghost use Rattle.press_feed.specs.Screener.{is_diffused};
ghost use Rattle.press_job.specs.Printing.{page_bit};

use crate::held_rows::{BLOCK, HeldRows};
use pr_base::{Ink, NoMemory};
use press_job::Job;
use scr_diffuse::BlockDiffuser;
use std::alloc::Global;
use std::marker::Model;

/// An ink of a page, whose errors go from row to row and from band to band. Contracts see the job, the ink,
/// the page, and how many of its rows were taken, in whole blocks of eight.
#[derive(Drop)]
pub(crate) struct Chain<'j> {
    job: &'j Job,
    ink: Ink,
    page: usize,
    count: u32,
    diffuser: BlockDiffuser,
}

impl<'j> Model for Chain<'j> {
    ghost use Rattle.press_feed.specs.ChainRows.{ChainData, IsChain};

    ghost Value = { ChainData };

    ghost view = { λ c. record { job = c.job.now; ink = c.ink; page = c.page; count = c.count } };

    ghost invariant = { λ c. IsChain c.job.now c.page c.ink c.count c.diffuser };
}

impl<'j> Chain<'j> {
    /// Allocates a chain at the top of page 0.
    pub(crate) fn open(alloc: Global, job: &'j Job, ink: Ink) -> Result<Chain<'j>, NoMemory>
        ensures { IfOk result (λ chain. chain ≡ record { job = job.now; ink = ink; page = 0; count = 0 }) }
    {
        let diffuser = BlockDiffuser::new(alloc, job.plan().page_width)?;
        Ok(Chain {
            job,
            ink,
            page: 0,
            count: 0,
            diffuser,
        })
    }

    /// Moves to the top of a page.
    pub(crate) fn begin(&mut self, page: usize)
        ensures { self.new ≡ at_top page self.old }
    {
        self.diffuser.restart();
        self.page = page;
        self.count = 0;
    }

    /// Takes the rows held, the next ones, and as many more as make eight.
    pub(crate) fn take(&mut self, rows: &HeldRows<'_>)
        requires job { rows.now.job ≡ self.old.job }
        requires next { IsNextFor rows.now self.old }
        ensures { self.new ≡ behind_block self.old }
    {
        let ink = self.ink;
        self.diffuser.advance(&[
            rows.values(0, ink),
            rows.values(1, ink),
            rows.values(2, ink),
            rows.values(3, ink),
            rows.values(4, ink),
            rows.values(5, ink),
            rows.values(6, ink),
            rows.values(7, ink),
        ]);
        self.count += BLOCK;
    }

    /// Whether row `count` of a page is the next one.
    pub(crate) fn is_at(&self, page: usize, count: u32) -> bool
        ensures { IsTrue result ↔ ((self.now.page ≡ page) × (self.now.count ≡ count)) }
    {
        self.page == page && self.count == count
    }

    /// Sets the pixels from `from` on to those of one of the last eight rows taken, if the page has it.
    pub(crate) fn draw(&self, k: usize, bits: &mut [u8], from: u32)
        requires eight { k < 8 }
        requires taken { 8 ≤ self.now.count }
        requires within { self.now.count - 8 + k < self.now.job.plan.page_height }
        requires diffused { is_diffused self.now.job.plan self.now.ink ≡ true }
        requires room { from + self.now.job.plan.page_width ≤ 8 * length bits.old }
        ensures { SetsBits (λ x. page_bit self.now.job.plan self.now.job.files self.now.page self.now.ink
            x (self.now.count - 8 + k)) from self.now.job.plan.page_width bits.old bits.new }
    {
        self.diffuser.draw(k, bits, from);
    }
}
