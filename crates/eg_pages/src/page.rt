// Pages of words, which several memories may share.
ghost use Rattle.std.specs.Prelude.{◌≡◌, ◌<◌, length, replicate, slice_index, slice_set, IfOk, OnOk, OnErr};
ghost use Rattle.eg_guard.specs.Memory.{AreWords};
ghost use Rattle.eg_pages.specs.Pages.{ArePages, pages_of, page_words};

use eg_base::NoMemory;
use eg_guard::WORDS;
use std::alloc::Global;
use std::rc::Rc;

/// How many words a page has.
pub const PAGE_WORDS: u16 = 64;

/// How many pages a memory has.
pub const PAGES: u16 = WORDS / PAGE_WORDS;

/// The words of a page, which others may share.
pub(crate) type SharedPage = Rc<[u16; PAGE_WORDS as usize]>;

/// The pages of a memory.
pub(crate) type SharedPages = [SharedPage; PAGES as usize];

/// Pages of which every word is 0. (They are one page, shared.)
pub(crate) fn zero_pages(alloc: Global) -> Result<SharedPages, NoMemory>
    ensures words { IfOk result (λ pages. page_words pages ≡ replicate WORDS 0) }
    ensures are_pages { IfOk result (λ pages. ArePages (pages_of pages)) }
{
    let page = Rc::new(alloc, [0; PAGE_WORDS as usize])?;
    let pages = vec![in alloc; page; PAGES as usize]?;
    match SharedPages::try_from(pages) {
        Ok(pages) => Ok(pages),
        Err(_) => unreachable!(),
    }
}

/// The same pages, shared.
pub(crate) fn share(pages: &SharedPages) -> Result<SharedPages, NoMemory>
    ensures { IfOk result (λ shared. pages_of shared ≡ pages_of pages.now) }
{
    Ok(pages.clone()?)
}

/// The word at an address.
#[inline]
pub(crate) fn word_at(pages: &SharedPages, address: u16) -> u16
    requires are_pages { ArePages (pages_of pages.now) }
    requires within { address < WORDS }
    ensures { result ≡ slice_index (page_words pages.now) address }
{
    let page = &pages[usize::from(address / PAGE_WORDS)];
    page[usize::from(address % PAGE_WORDS)]
}

/// The words of the pages in one array, one page after another.
pub(crate) fn joined(pages: &SharedPages) -> [u16; WORDS as usize]
    requires { ArePages (pages_of pages.now) }
    ensures { result ≡ page_words pages.now }
{
    let size = usize::from(PAGE_WORDS);
    let mut words = [0; WORDS as usize];
    for number in 0..usize::from(PAGES) {
        let start = number * size;
        words[start..start + size].copy_from_slice(&*pages[number]);
    }
    words
}

/// Makes pages those of these words. One whose words are the same stays, and is shared as before.
pub(crate) fn fill(
    pages: &mut SharedPages,
    alloc: Global,
    words: &[u16; WORDS as usize],
) -> Result<(), NoMemory>
    requires are_pages { ArePages (pages_of pages.old) }
    requires are_words { AreWords words.now }
    ensures words { OnOk result (page_words pages.new ≡ words.now) }
    ensures are_pages { OnOk result (ArePages (pages_of pages.new)) }
{
    let size = usize::from(PAGE_WORDS);
    for number in 0..usize::from(PAGES) {
        let start = number * size;
        fill_page(&mut pages[number], alloc, &words[start..start + size])?;
    }
    Ok(())
}

/// Makes a page one of these words.
fn fill_page(page: &mut SharedPage, alloc: Global, words: &[u16]) -> Result<(), NoMemory>
    requires { length words.now ≡ PAGE_WORDS }
    ensures { OnOk result (page.new.value ≡ words.now) }
{
    if page[..] == words[..] {
        return Ok(());
    }
    let mut own = [0; PAGE_WORDS as usize];
    own.copy_from_slice(words);
    *page = Rc::new(alloc, own)?;
    Ok(())
}

/// Puts a word at an address. NoMemory, which is meant to come only where the page is shared, changes
/// nothing.
#[inline]
pub(crate) fn put_at(
    pages: &mut SharedPages,
    alloc: Global,
    address: u16,
    word: u16,
) -> Result<(), NoMemory>
    requires are_pages { ArePages (pages_of pages.old) }
    requires within { address < WORDS }
    ensures put { OnOk result (page_words pages.new ≡ slice_set (page_words pages.old) address word) }
    ensures unchanged { OnErr result (page_words pages.new ≡ page_words pages.old) }
    ensures are_pages { ArePages (pages_of pages.new) }
{
    let page = &mut pages[usize::from(address / PAGE_WORDS)];
    put(page, alloc, usize::from(address % PAGE_WORDS), word)
}

/// Puts a word at an index of a page. Memories that share the page keep it as it was. NoMemory changes
/// nothing, and is meant to come only where the page is shared.
#[inline]
fn put(page: &mut SharedPage, alloc: Global, index: usize, word: u16) -> Result<(), NoMemory>
    requires { index < PAGE_WORDS }
    ensures put { OnOk result (page.new.value ≡ slice_set page.old.value index word) }
    ensures unchanged { OnErr result (page.new.value ≡ page.old.value) }
{
    if let Some(words) = Rc::get_mut(page) {
        words[index] = word;
        return Ok(());
    }
    put_in_copy(page, alloc, index, word)
}

/// Puts a word at an index of a page that is shared: a copy of the page, with the word, takes its place.
#[cold]
#[inline(never)]
fn put_in_copy(
    page: &mut SharedPage,
    alloc: Global,
    index: usize,
    word: u16,
) -> Result<(), NoMemory>
    requires { index < PAGE_WORDS }
    ensures put { OnOk result (page.new.value ≡ slice_set page.old.value index word) }
    ensures unchanged { OnErr result (page.new.value ≡ page.old.value) }
{
    let mut words = **page;
    words[index] = word;
    *page = Rc::new(alloc, words)?;
    Ok(())
}
