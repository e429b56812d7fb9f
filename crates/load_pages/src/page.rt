//! What stands ahead of the sections of a page and behind them: HTML that needs nothing from elsewhere.
//! It knows no section.
ghost use Rattle.std.specs.Prelude.{◌≡◌, ◌++◌, OnOk};
ghost use Rattle.load_pages.specs.Pages.{closing_text, dark_text, head_text, light_text, opening_text, print_text, title_text};

use crate::pieces::put;
use std::alloc::AllocError;

/// The most bytes of a page.
pub const MOST_PAGE_BYTES: usize = 30_000_000;

/// Adds what stands ahead of the first section.
pub fn put_opening(text: &mut Vec<u8>) -> Result<(), AllocError>
    ensures { OnOk result (text.new.items ≡ text.old.items ++ opening_text) }
{
    put_head(text)?;
    put_light(text)?;
    put_dark(text)?;
    put_print(text)?;
    put_title(text)
}

#[tactic(auto, unfolding(crate::specs::Pages::head_text))]
fn put_head(text: &mut Vec<u8>) -> Result<(), AllocError>
    ensures { OnOk result (text.new.items ≡ text.old.items ++ head_text) }
{
    put(
        text,
        b"<!DOCTYPE html><html lang=en><head><meta charset=utf-8><meta name=viewport content='width=device-width, initial-scale=1'><meta name=color-scheme content='light dark'><title>Loads</title><style>:root{color-scheme:light dark}",
    )
}

#[tactic(auto, unfolding(crate::specs::Pages::light_text))]
fn put_light(text: &mut Vec<u8>) -> Result<(), AllocError>
    ensures { OnOk result (text.new.items ≡ text.old.items ++ light_text) }
{
    put(
        text,
        b"body{margin:1em;font:14px system-ui,sans-serif;background:#fff;color:#111}div{overflow-x:auto}table{border-spacing:0;border:solid #ccc;border-width:1px 0 0 1px}th,td{padding:.2em .4em;border:solid #ccc;border-width:0 1px 1px 0;text-align:right;white-space:nowrap}th:first-child{position:sticky;left:0;text-align:left;background:#fff}.s0{--n:0}.s1{--n:1}.s2{--n:2}.s3{--n:3}.s4{--n:4}.s5{--n:5}.s6{--n:6}.s7{--n:7}.s8{--n:8}.s9{--n:9}.s10{--n:10}td[class]{background:hsl(210 70% calc(97% - var(--n)*6.5%))}.s8,.s9,.s10{color:#fff}",
    )
}

#[tactic(auto, unfolding(crate::specs::Pages::dark_text))]
fn put_dark(text: &mut Vec<u8>) -> Result<(), AllocError>
    ensures { OnOk result (text.new.items ≡ text.old.items ++ dark_text) }
{
    put(
        text,
        b"@media screen and (prefers-color-scheme:dark){body,th:first-child{background:#111;color:#eee}table,th,td{border-color:#444}td[class]{background:hsl(210 60% calc(15% + var(--n)*4%))}.s8,.s9,.s10{color:#000}}",
    )
}

#[tactic(auto, unfolding(crate::specs::Pages::print_text))]
fn put_print(text: &mut Vec<u8>) -> Result<(), AllocError>
    ensures { OnOk result (text.new.items ≡ text.old.items ++ print_text) }
{
    put(
        text,
        b"@media print{@page{size:landscape}section+section{break-before:page}div{overflow:visible}table{font-size:60%}tr{break-inside:avoid}td{-webkit-print-color-adjust:exact;print-color-adjust:exact;padding:.1em;min-width:3.4em;white-space:normal}th[scope=col]+th{writing-mode:vertical-rl}}",
    )
}

#[tactic(auto, unfolding(crate::specs::Pages::title_text))]
fn put_title(text: &mut Vec<u8>) -> Result<(), AllocError>
    ensures { OnOk result (text.new.items ≡ text.old.items ++ title_text) }
{
    put(
        text,
        b"</style></head><body><h1>Loads</h1><p>Seats held of the limit, in each class with those below it, by flight and day of departure. The colour says how many tenths of the limit are held.",
    )
}

/// Adds what stands behind the last section.
#[tactic(auto, unfolding(crate::specs::Pages::closing_text))]
pub fn put_closing(text: &mut Vec<u8>) -> Result<(), AllocError>
    ensures { OnOk result (text.new.items ≡ text.old.items ++ closing_text) }
{
    put(text, b"\n</html>\n")
}
