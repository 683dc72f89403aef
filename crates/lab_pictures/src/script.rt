//! The script of the HTML page.

/// What the page does: it draws what is in view of the data before it, and goes from cycle to cycle.
pub fn script() -> &'static str {
    r#"'use strict';

// ==== tools/serve/viewer.js ====
// What the page of `draw` and the workbench share. tools/viewer.py writes it into both; change it here.

const FIELD = { marks: 0, a: 1, b: 2, result: 3, ways: 4, md: 5, inputs: 6, fetches: 7, misses: 8, squashes: 9, interrupts: 10,
  byte: 11, registers: 12, address: 13, word: 14 };
const STAGES = ['IF', 'RF', 'ALU', 'MEM', 'WB'];
const WAYS = ['', 'file', 'bypass in RF', 'bypass in ALU'];
const ROW = 20, COLUMN = 38, HEAD = 38, KEPT = 64, STAY = 15, MOST_CONSOLE = 65536;

const find = id => document.getElementById(id);
const element = (name, look, words) => {
  const made = document.createElement(name);
  if (look) made.className = look;
  if (words !== undefined) made.textContent = words;
  return made;
};
const hex = (n, digits = 8) => (n >>> 0).toString(16).padStart(digits, '0');
const bytesOf = text => Uint8Array.from(text, sign => sign.charCodeAt(0));
const textOf = bytes => new TextDecoder().decode(bytes);
// The character of a register or a word that holds one byte of ASCII: the console takes bytes.
const character = n => n >= 32 && n < 127 ? String.fromCharCode(n) : '';
const within = (n, low, high) => Math.max(low, Math.min(high, n));

// The index of the last of some sorted numbers that is at most n, -1 where there is none.
const lastUpTo = (count, at, n) => {
  let low = 0, high = count;
  while (low < high) {
    const middle = (low + high) >> 1;
    if (at(middle) <= n) low = middle + 1; else high = middle;
  }
  return low - 1;
};

// ---- a range of cycles ----

// How a page shows a run: the origin of a word and its line, the lines above the listing, and what it adds to the reason of a no-op.
const AS_IT_IS = { origin: origin => origin, line: line => line, words: null, more: () => '' };

class Range {
  constructor(data, shown = AS_IT_IS) {
    this.data = data;
    this.shown = shown;
    this.words = shown.words;
    this.from = data.from;
    this.cycles = data.cycles;
    this.count = data.cycles.length;
    this.readListing();
    this.readRegisters();
    this.readWords();
  }

  readListing() {
    const { data, cycles } = this;
    // Of each cycle the last one up to it that has an array: a stalled cycle changes nothing.
    this.full = new Int32Array(this.count);
    for (let k = 0; k < this.count; k++) this.full[k] = typeof cycles[k] === 'number' ? this.full[k - 1] : k;
    this.listing = new Map();
    // What the listing shows: the words, and above those of another line of C that line.
    this.entries = [];
    let above = 0;
    for (const [address, word, text, origin, line, a, b, kind] of data.listing) {
      const held = { address, word, text, origin: this.shown.origin(origin, line), line: this.shown.line(line), reads: [a, b], kind, isCopy: origin[0] === '+', isNoOp: origin === '-',
        // its line of what is run
        from: line };
      if (this.words && held.line && held.line !== above) this.entries.push({ words: held.line + ': ' + (this.words[held.line - 1] || '').trim() });
      above = held.line || above;
      held.k = this.entries.length;
      this.entries.push(held);
      this.listing.set(address, held);
    }
    this.rows = data.rows.map(([address, begins, cells], k) => ({ address, begins, cells, fetch: data.first + k }))
      .filter(row => row.cells.trim() !== '');
    this.rows.forEach((row, k) => { row.k = k; });
    // of several labels of one place the first is shown, as elsewhere
    this.labels = new Map(data.labels.map(([name, address, kind]) => [kind + address, name]).reverse());
  }

  // The registers as a cycle leaves them. Those of each 64th cycle are kept.
  readRegisters() {
    this.kept = [];
    const running = new Array(32).fill(0);
    for (let k = 0; k < this.count; k++) {
      this.put(running, k);
      if (k % KEPT === 0) this.kept.push(running.slice());
    }
  }

  // What each data word held, from which cycle on; and the bytes that were sent.
  readWords() {
    this.held = new Map();
    for (const [first, ...values] of this.data.words) values.forEach((value, j) => this.held.set(first + j, [[-1, value]]));
    this.before = bytesOf(this.data.before);
    this.sent = [];
    for (let k = 0; k < this.count; k++) {
      if (typeof this.cycles[k] === 'number') continue;
      const byte = this.field(k, 'byte'), address = this.field(k, 'address');
      if (byte >= 0) this.sent.push([k, byte]);
      else if (address >= 0) {
        if (!this.held.has(address)) this.held.set(address, [[-1, 0]]);
        this.held.get(address).push([k, this.field(k, 'word')]);
      }
    }
    this.addresses = [...this.held.keys()].sort((a, b) => a - b);
  }

  has(cycle) { return cycle >= this.from && cycle < this.from + this.count; }
  marks(k) { return typeof this.cycles[k] === 'number' ? this.cycles[k] : this.cycles[k][FIELD.marks]; }
  isStalled(k) { return (this.marks(k) & 1) !== 0; }
  field(k, name) { return this.cycles[this.full[k]][FIELD[name]]; }

  put(registers, k) {
    if (typeof this.cycles[k] === 'number') return;
    const changes = this.cycles[k][FIELD.registers];
    for (let j = 0; j < changes.length; j += 2) registers[changes[j]] = changes[j + 1];
  }

  registers(k) {
    const base = k - k % KEPT, found = this.kept[base / KEPT].slice();
    for (let j = base + 1; j <= k; j++) this.put(found, j);
    return found;
  }

  wordAt(address, k) {
    const values = this.held.get(address);
    return values[lastUpTo(values.length, j => values[j][0], k)];
  }

  // What was sent up to a cycle; of a long console the end alone.
  console(k) {
    const many = lastUpTo(this.sent.length, j => this.sent[j][0], k) + 1, whole = this.before.length + many, left = Math.max(0, whole - MOST_CONSOLE);
    const before = this.before.subarray(Math.min(left, this.before.length)), first = Math.max(0, left - this.before.length);
    const bytes = new Uint8Array(before.length + many - first);
    bytes.set(before);
    for (let j = first; j < many; j++) bytes[before.length + j - first] = this.sent[j][1];
    return (left ? `(the first ${left} bytes are left out)\n` : '') + textOf(bytes);
  }

  // The rows that have a cell in a cycle, the oldest first.
  rowsAt(k) {
    const found = [];
    for (let j = lastUpTo(this.rows.length, j => this.rows[j].begins, k); j >= 0 && this.rows[j].begins > k - STAY; j--)
      if (signAt(this.rows[j], k) !== ' ') found.unshift(this.rows[j]);
    return found;
  }
}

// What a sign of a row's cells says.
const cellOf = sign => {
  if (sign === 'w') return { stage: 0, look: 'waits', word: 'wait' };
  const stage = '01234'.indexOf(sign), squashed = 'abcde'.indexOf(sign), killed = 'ABCDE'.indexOf(sign);
  if (stage >= 0) return { stage, look: STAGES[stage], word: STAGES[stage] };
  if (squashed >= 0) return { stage: squashed, look: 'squashed', word: STAGES[squashed] };
  if (killed >= 0) return { stage: killed, look: 'killed', word: STAGES[killed] };
  return null;
};
const signAt = (row, k) => row.cells[k - row.begins] || ' ';
const tagOf = sign => {
  const cell = cellOf(sign);
  if (cell.look === 'waits') return 'waits';
  return cell.word + (cell.look === 'squashed' ? '*' : cell.look === 'killed' ? '!' : '');
};

// ---- reasons ----

const place = address => address < 0 ? '' : hex(address, 4);

// What is said of a slot with a no-op: who found no instruction for it.
const EMPTY = { padded: 'padded plans have none', list: 'the list scheduler found none', copies: 'the list scheduler found none',
  best: 'the plan of its block has none',
  plans: 'the plans of the file have none' };

// Why a no-op stands at an address: the words before it tell.
const whyNoOp = (range, address) => {
  const last = range.listing.get(address - 1), other = range.listing.get(address - 2);
  const transfer = [last, other].find(word => word && word.kind >= 3);
  if (transfer) return 'no-op in a slot of ' + place(transfer.address) + ': ' + EMPTY[range.data.scheduler] + range.shown.more(range, address);
  if (last && last.kind === 1)
    return 'no-op after the load at ' + place(last.address) + ': ' + EMPTY[range.data.scheduler] + range.shown.more(range, address);
  return 'no-op';
};
const whySquashed = (range, row) => {
  const branch = [range.rows[row.k - 1], range.rows[row.k - 2]].find(other => other && range.listing.has(other.address) && range.listing.get(other.address).kind === 4);
  return branch ? 'squashed: the branch at ' + place(branch.address) + ' did not hold' : 'squashed';
};

// Which way each operand of the word in ALU came.
const operandsAt = (range, row, k) => {
  const word = range.listing.get(row.address), ways = range.field(k, 'ways');
  if (!word) return [];
  return [ways % 4, ways >> 2].map((way, j) => ({ way, register: word.reads[j], value: range.field(k, j ? 'b' : 'a') })).filter(it => it.way > 0);
};
// What the word in ALU does there: where a transfer goes, what the others make.
const madeBy = (range, word, k) => {
  const result = range.field(k, 'result'), type = word.word >>> 30, code = word.word >>> 27 & 7, goes = address => 'goes to ' + place(address & 0xffff);
  if (type === 0 && code < 6) return result ? goes(word.address + (word.word << 16 >> 16)) : 'does not hold';
  if (type === 3 && code === 1) return goes(range.field(k, 'a') + (word.word << 15 >> 15)) + (word.word >>> 17 & 31 ? ', makes ' + hex(result) : '');
  return type === 3 && code > 1 ? '' : 'makes ' + hex(result);
};
// In which of its two cycles a fetch waits that is not in the cache.
const waitOf = (range, k) => (k + 1 < range.count ? range.isStalled(k + 1) : k - lastMoving(range, k) < 2) ? 1 : 2;
const whyAt = (range, row, k) => {
  const sign = signAt(row, k), cell = cellOf(sign), word = range.listing.get(row.address), reasons = [];
  if (sign === 'w') {
    reasons.push(`not in the cache, stalled cycle ${waitOf(range, k)} of 2`);
    const fetched = heldRow(range, 0, lastMoving(range, k));
    if (fetched) reasons.push(place(fetched.address) + ' before it waits to enter RF');
  }
  if (cell.look === 'squashed') reasons.push(whySquashed(range, row));
  if (cell.look === 'killed') reasons.push('killed by the interrupt');
  if (!word && row.address >= 0) reasons.push('no word of the program');
  if (word && word.isNoOp && STAGES.includes(cell.look)) reasons.push(whyNoOp(range, row.address));
  if (sign === '2' || sign === 'C')
    for (const it of operandsAt(range, row, k)) reasons.push('r' + it.register + ' = ' + hex(it.value) + ' (' + WAYS[it.way] + ')');
  if (sign === '2' && word && !word.isNoOp) reasons.push(madeBy(range, word, k));
  if (sign === '3' && word && word.kind === 2)
    reasons.push(range.field(k, 'byte') >= 0 ? 'sends ' + hex(range.field(k, 'byte'), 2) : 'stores ' + hex(range.field(k, 'word')) + ' at ' + place(range.field(k, 'address')));
  return reasons.filter(it => it).join('; ');
};

// What a stage holds in a stalled cycle: what it held in the last cycle that was not, since nothing moves.
const lastMoving = (range, at) => {
  while (at >= 0 && range.isStalled(at)) at--;
  return at;
};
// The row of what a stage holds behind a cycle; none where an interrupt has killed it there.
const heldRow = (range, n, moved) => {
  const row = moved < 0 ? null : range.rowsAt(moved).find(it => cellOf(signAt(it, moved)).stage === n);
  return row && !isKilled(row, moved) ? row : null;
};
const isKilled = (row, k) => cellOf(signAt(row, k)).look === 'killed';
const heldIn = (range, stage, n, at) => {
  const moved = lastMoving(range, at), row = heldRow(range, n, moved), word = row && range.listing.get(row.address);
  const wasKilled = moved >= 0 && range.rowsAt(moved).some(it => isKilled(it, moved) && cellOf(signAt(it, moved)).stage === n);
  if (!row) return { cells: [stage, '', '', '', wasKilled ? 'empty: the interrupt killed what was here' : 'empty'] };
  const held = cellOf(signAt(row, moved)).look === 'squashed' ? 'squashed; held by the stall' : 'held by the stall';
  return { row, cells: [stage, place(row.address), word ? word.text : '', word ? word.origin : '', held] };
};

// ---- the picture ----

// In a stalled cycle a word stays in the stage that it was in.
const heldCell = (range, row, j) => {
  const moved = lastMoving(range, row.begins + j) - row.begins, cell = moved >= 0 && moved < j ? cellOf(row.cells[moved] || ' ') : null;
  if (!cell || cell.look === 'waits' || cell.look === 'killed') return null;
  return { ...cell, look: cell.look === 'squashed' ? 'held squashed' : 'held' };
};
// The cells of a row by their columns, with those in stalled cycles, also behind the last one.
const cellsOf = (range, row) => {
  const found = [], isStalled = k => k < range.count && range.isStalled(k);
  for (let j = 0; j < row.cells.length || isStalled(row.begins + j); j++) {
    const cell = cellOf(row.cells[j] || ' ') || heldCell(range, row, j);
    if (cell) found.push([j, cell]);
  }
  return found;
};
// The rows that are in a stage in a cycle, the oldest first: also those that a stalled cycle holds there.
const rowsIn = (range, k) => {
  const moved = lastMoving(range, k), held = moved < k && moved >= 0 ? range.rowsAt(moved).filter(row => !isKilled(row, moved)) : [];
  return [...held, ...range.rowsAt(k)];
};

// An arrow of the picture, as its line and its tip.
const SVG = 'http://www.w3.org/2000/svg';
const arrow = (fromX, fromY, toX, toY) => {
  const path = document.createElementNS(SVG, 'path'), tip = document.createElementNS(SVG, 'path');
  const turn = Math.atan2(toY - fromY, toX - fromX), side = d => `${toX - 7 * Math.cos(turn + d)} ${toY - 7 * Math.sin(turn + d)}`;
  path.setAttribute('d', `M${fromX} ${fromY}L${toX} ${toY}`);
  tip.setAttribute('class', 'tip');
  tip.setAttribute('d', `M${toX} ${toY}L${side(.5)}L${side(-.5)}Z`);
  return [path, tip];
};

// ---- tables ----

// A table's roles are told, since a narrow screen shows its rows as grids.
const lineOf = (names, role, look) => {
  const line = element('tr');
  line.setAttribute('role', 'row');
  names.forEach((words, k) => {
    const cell = line.appendChild(element(role && k ? 'td' : 'th', look[k], role ? '' : words));
    cell.setAttribute('role', role && k ? 'cell' : role || 'columnheader');
  });
  return line;
};

// Fills a table. Its cells stay, and only those that have changed are written.
const fill = (id, heads, entries, look = []) => {
  const table = find(id), above = heads ? 1 : 0;
  if (table.rows.length !== entries.length + above) {
    table.setAttribute('role', 'table');
    table.replaceChildren(...(heads ? [lineOf(heads, '', look)] : []), ...entries.map(entry => lineOf(entry.cells, 'rowheader', look)));
  }
  entries.forEach((entry, n) => {
    const line = table.rows[n + above];
    if (line.className !== (entry.look || '')) line.className = entry.look || '';
    entry.cells.forEach((words, k) => {
      const cell = line.cells[k], told = String(words);
      if (cell.textContent !== told) cell.textContent = told;
    });
  });
};

// ---- search ----

const isFound = {
  store: (range, k) => !range.isStalled(k) && (range.field(k, 'address') >= 0 || range.field(k, 'byte') >= 0),
  byte: (range, k) => !range.isStalled(k) && range.field(k, 'byte') >= 0,
  interrupt: (range, k) => (range.marks(k) & 4) !== 0,
  squash: (range, k) => k > 0 && range.field(k, 'squashes') > range.field(k - 1, 'squashes'),
};

const STEPS = { ArrowRight: 1, ArrowLeft: -1, ArrowDown: 1, ArrowUp: -1, PageDown: 16, PageUp: -16, Home: -Infinity, End: Infinity };
// ==== the end of tools/serve/viewer.js ====

// The data of the page, which stands before this script as JSON:
//   rows      a fetch each: its address (-1 where it is not known), the place of its first cell, and its cells, a sign for a
//             cycle: a blank for none, w waits, 0 to 4 a stage, a to e a squashed one, A to E one that an interrupt kills
//   cycles    a cycle each: only its marks (1 stalled, 2 requested, 4 taken, 8 halted) where it is stalled, else an array with
//             the fields of FIELD
//   listing   a word each: address, word, text, origin, line, the two registers that it reads, kind (1 a load, 2 a store,
//             3 a transfer, 4 a branch that squashes)
//   words     runs of data words before the first cycle: the first one's address, and their values
const data = JSON.parse(find('data').textContent);
const range = new Range(data), count = range.count;
const lines = textOf(bytesOf(data.text)).split('\n');

// ---- lists of equal lines, of which only those in view are in the document ----

const listOf = (view, many, make) => {
  const sizer = view.appendChild(element('div', 'sizer'));
  sizer.setAttribute('role', 'list');
  sizer.style.height = many * ROW + 'px';
  const draw = () => {
    const first = Math.max(0, Math.floor(view.scrollTop / ROW) - 5);
    const behind = Math.min(many, Math.ceil((view.scrollTop + view.clientHeight) / ROW) + 5), made = [];
    for (let k = first; k < behind; k++) {
      const entry = make(k);
      entry.setAttribute('role', 'listitem');
      entry.setAttribute('aria-setsize', many);
      entry.setAttribute('aria-posinset', k + 1);
      entry.style.top = k * ROW + 'px';
      made.push(entry);
    }
    sizer.replaceChildren(...made);
  };
  let revealed = [0, 0];
  const reveal = (first, last = first) => {
    revealed = [first, last];
    const top = first * ROW, bottom = (last + 1) * ROW, room = view.clientHeight;
    if (top < view.scrollTop || bottom > view.scrollTop + room) view.scrollTop = bottom - top > room ? bottom - room : (top + bottom - room) / 2;
  };
  view.addEventListener('scroll', draw);
  new ResizeObserver(() => {
    reveal(...revealed);
    draw();
  }).observe(view);
  return { draw, reveal };
};

let current = 0;
const marks = { lines: new Set(), words: new Map() };

const source = listOf(find('source'), lines.length, k =>
  element('div', marks.lines.has(k + 1) ? 'entry on' : 'entry', String(k + 1).padStart(4) + '  ' + lines[k]));
const listing = listOf(find('listing'), data.listing.length, k => {
  const [address, word, text, origin] = data.listing[k], tag = marks.words.get(address) || '';
  const entry = element('div', tag ? 'entry on' : 'entry');
  const label = range.labels.get('code' + address);
  entry.append(element('span', 'tag', tag), place(address) + ' ' + hex(word) + ' ' + origin.padStart(5) + '  ' + text + (label ? '   ; ' + label : ''));
  return entry;
});
const stored = listOf(find('words'), range.addresses.length, k => {
  const address = range.addresses[k], [since, value] = range.wordAt(address, current);
  const label = range.labels.get('data' + address);
  return element('div', since === current ? 'entry changed' : 'entry', (since === current ? '>' : ' ') + hex(address, 4) + ' ' + hex(value) + ' '
    + String(value | 0).padStart(11) + ' ' + character(value) + (label ? '   ; ' + label : ''));
});

// ---- the picture ----

const view = find('view');
let labelWidth = 300;
const across = k => labelWidth + k * COLUMN;
const down = k => HEAD + k * ROW;

const drawHeads = () => {
  const corner = element('span', 'corner', 'cycle');
  const first = within(Math.floor(view.scrollLeft / COLUMN) - 2, 0, count), behind = Math.min(count, first + Math.ceil(view.clientWidth / COLUMN) + 4);
  const heads = [corner];
  for (let k = first; k < behind; k++) {
    const cycle = data.from + k, marks = range.marks(k), byte = range.isStalled(k) ? -1 : range.field(k, 'byte');
    const number = cycle < 100000 || k % 2 === 0 ? String(cycle) : '';
    const event = (marks & 4 ? 'int' : marks & 2 ? 'req' : '') + (byte >= 0 ? (byte > 32 && byte < 127 ? "'" + String.fromCharCode(byte) + "'" : hex(byte, 2)) : '');
    const head = element('span', k === current ? 'head on' : 'head', number + '\n' + event);
    head.style.left = across(k) + 'px';
    heads.push(head);
  }
  find('heads').replaceChildren(...heads);
};

const drawRow = row => {
  const word = range.listing.get(row.address), sign = signAt(row, current), line = element('div', sign === ' ' ? 'row' : 'row on');
  const label = element('div', 'label');
  label.append(element('span', '', row.address < 0 ? '----' : place(row.address)), element('span', 'what', word ? word.text : ''), element('span', '', word ? word.origin : ''));
  line.append(label);
  for (const [j, cell] of cellsOf(range, row)) {
    const shown = element('span', 'cell ' + cell.look + (row.begins + j === current ? ' on' : ''), cell.word);
    shown.style.left = across(row.begins + j) + 1 + 'px';
    line.append(shown);
  }
  line.style.top = down(row.k) + 'px';
  return line;
};

// Arrows for the operands of the word in ALU: from the word in MEM, in this cycle or in that of RF, or from the file.
const drawWays = held => {
  const made = [];
  const row = held.find(row => '2C'.includes(signAt(row, current)));
  if (row) operandsAt(range, row, current).forEach((operand, j) => {
    const shift = j ? 14 : -14, asked = row.begins + row.cells.indexOf('1'), other = range.rows[row.k - (operand.way === 3 ? 1 : 2)];
    const x = across(operand.way === 3 ? current : asked) + COLUMN / 2 + shift, y = down(row.k) + (j ? 15 : 5);
    if (operand.way > 1 && other) made.push(...arrow(x, down(other.k) + 8, x, down(row.k) + 9));
    else if (operand.way === 1 && asked >= row.begins) made.push(...arrow(across(asked) - 16, y, across(asked) + 4, y));
  });
  find('ways').replaceChildren(...made);
};

const drawPicture = () => {
  const first = within(Math.floor((view.scrollTop - HEAD) / ROW) - 3, 0, range.rows.length);
  const behind = Math.min(range.rows.length, first + Math.ceil(view.clientHeight / ROW) + 6);
  drawHeads();
  find('rows').replaceChildren(...range.rows.slice(first, behind).map(drawRow));
  find('now').style.left = across(current) + 'px';
  drawWays(range.rowsAt(current));
};

// The picture gets its size, which goes by the width of the labels.
const measure = () => {
  labelWidth = view.clientWidth < 600 ? 190 : 300;
  const width = across(count) + 20, height = down(range.rows.length) + 20;
  view.style.setProperty('--label', labelWidth + 'px');
  find('sizer').style.width = width + 'px';
  find('sizer').style.height = height + 'px';
  find('now').style.height = height - HEAD + 'px';
};

// The rows of the turn and the column of the cycle come into view.
const follow = held => {
  if (held.length) {
    const top = down(held[0].k), bottom = down(held[held.length - 1].k) + ROW;
    if (top < view.scrollTop + HEAD || bottom > view.scrollTop + view.clientHeight) view.scrollTop = top - HEAD - Math.max(0, view.clientHeight - HEAD - (bottom - top)) / 2;
  }
  const left = across(current), room = view.clientWidth - labelWidth;
  if (left < view.scrollLeft + labelWidth || left + 2 * COLUMN > view.scrollLeft + view.clientWidth) view.scrollLeft = left - labelWidth - room / 2;
};
view.addEventListener('scroll', drawPicture);
new ResizeObserver(() => {
  measure();
  drawPicture();
}).observe(view);

// ---- tables ----

const drawStages = held => {
  const entries = STAGES.map((stage, n) => {
    const row = held.find(row => cellOf(signAt(row, current)).stage === n);
    if (!row && range.isStalled(current)) return heldIn(range, stage, n, current);
    if (!row) return { cells: [stage, '', '', '', ''] };
    const word = range.listing.get(row.address);
    return { cells: [stage, place(row.address), word ? word.text : '', word ? word.origin : '', whyAt(range, row, current)] };
  });
  fill('stages', ['stage', 'address', 'word', 'line', 'why'], entries, ['', '', '', '', 'why']);
  find('told').textContent = 'cycle ' + (data.from + current) + ': ' + held.map(row => {
    const cell = cellOf(signAt(row, current)), word = range.listing.get(row.address);
    return cell.word + ' ' + place(row.address) + ' ' + (word ? word.text : '');
  }).join(', ');
};

const drawRegisters = () => {
  const now = range.registers(current), last = current ? range.registers(current - 1) : now;
  const entry = (name, value, old) => ({ look: value === old ? '' : 'changed', cells: [(value === old ? ' ' : '>') + name, hex(value), String(value | 0), character(value)] });
  fill('registers', ['name', 'hexadecimal', 'decimal', 'character'],
    [...now.map((value, n) => entry('r' + n, value, last[n])), entry('md', range.field(current, 'md'), range.field(Math.max(0, current - 1), 'md'))]);
};

const drawCounts = () => {
  const marks = range.marks(current), yes = bit => marks & bit ? 'yes' : 'no';
  const counts = [['cycles', data.from + current + 1], ['stalled', yes(1)], ['request', yes(2)], ['interrupt taken', yes(4)], ['halted', yes(8)]];
  for (const count of ['fetches', 'misses', 'squashes', 'interrupts']) counts.push([count, range.field(current, count)]);
  counts.push(['input bytes taken', range.field(current, 'inputs')]);
  fill('counts', null, counts.map(cells => ({ cells })));
};

// ---- the cycle that is shown ----

let later = 0;
const show = k => {
  if (!count) return;
  current = within(k, 0, count - 1);
  const held = range.rowsAt(current);
  marks.lines.clear();
  marks.words.clear();
  for (const row of held) {
    const word = range.listing.get(row.address), tag = tagOf(signAt(row, current));
    if (!word) continue;
    marks.words.set(row.address, (marks.words.has(row.address) ? marks.words.get(row.address) + ' ' : '') + tag);
    if (word.line) marks.lines.add(word.line);
  }
  drawStages(held);
  drawRegisters();
  drawCounts();
  find('console').textContent = range.console(current);
  follow(rowsIn(range, current));
  drawPicture();
  const shown = held.map(row => range.listing.get(row.address)).filter(word => word), newest = shown[shown.length - 1];
  if (newest) {
    const near = shown.map(word => word.k).filter(k => Math.abs(k - newest.k) < 8);
    listing.reveal(Math.min(...near), Math.max(...near));
  }
  if (newest && newest.line) {
    const near = shown.map(word => word.line).filter(line => line && Math.abs(line - newest.line) < 8);
    source.reveal(Math.min(...near) - 1, Math.max(...near) - 1);
  }
  const change = range.isStalled(current) ? -1 : range.field(current, 'address');
  if (change >= 0) stored.reveal(Math.max(0, range.addresses.indexOf(change)));
  source.draw();
  listing.draw();
  stored.draw();
  find('cycle').value = data.from + current;
  find('slide').value = current;
  find('slide').setAttribute('aria-valuetext', 'cycle ' + (data.from + current));
  clearTimeout(later);
  later = setTimeout(() => history.replaceState(null, '', '#' + (data.from + current)), 150);
};

// ---- search ----

const visits = [];
for (const row of range.rows) {
  const mem = row.cells.indexOf('3'), word = range.listing.get(row.address);
  if (mem >= 0 && word && word.line) visits.push([row.begins + mem, word.line]);
}
const search = by => {
  const kind = find('kind').value, line = Number(find('line').value);
  const places = kind === 'line' ? new Set(visits.filter(visit => visit[1] === line).map(visit => visit[0])) : null;
  for (let k = current + by; k >= 0 && k < count; k += by)
    if (places ? places.has(k) : isFound[kind](range, k)) {
      find('found').textContent = 'cycle ' + (data.from + k);
      show(k);
      return;
    }
  find('found').textContent = 'none ' + (by > 0 ? 'behind' : 'before') + ' cycle ' + (data.from + current);
};
find('after').onclick = () => search(1);
find('before').onclick = () => search(-1);
find('line').onchange = () => { find('kind').value = 'line'; };

// ---- controls ----

find('first').onclick = () => show(0);
find('back').onclick = () => show(current - 1);
find('on').onclick = () => show(current + 1);
find('last').onclick = () => show(count - 1);
find('slide').max = Math.max(0, count - 1);
find('slide').oninput = () => show(Number(find('slide').value));
find('cycle').min = data.from;
find('cycle').max = data.from + Math.max(0, count - 1);
find('cycle').onchange = () => show((Number(find('cycle').value) || 0) - data.from);

document.addEventListener('keydown', event => {
  if (event.ctrlKey || event.altKey || event.metaKey || event.shiftKey || !(event.key in STEPS)) return;
  const at = event.target;
  if (at.matches('input, select') || at.matches('.view') && at !== view) return;
  event.preventDefault();
  show(current + STEPS[event.key]);
});
const asked = () => /^#\d+$/.test(location.hash) ? Number(location.hash.slice(1)) - data.from : 0;
addEventListener('hashchange', () => show(asked()));
addEventListener('beforeprint', drawPicture);

find('end').textContent = data.end;
measure();
show(asked());
"#
}
